// From a head along next to the first node whose tail is set, adding prev on the way. The store of that tail in the
// head, which is the walk's last access, is with what the walk was for (crate unlock, after_walk).
ghost use Rattle.std.specs.Prelude.{◌≡◌};
ghost use Rattle.walk.specs.FindTail.{walk_tail_of, walk_next_of, walk_prev_of};

use state::{Next, Place, Stepped, View, Walk};
use word::{NodeNumber, Word};

// Load current's tail: set, it goes into the head; none, on by next.
pub fn walk_tail(v: View, walk: Walk, seen: Word, current: NodeNumber) -> Stepped
    ensures { result ≡ walk_tail_of v walk seen current }
{
    let tail = v.node.tail;
    v.stays(Next::at(if tail.is_none() {
        Place::WalkNext {
            walk,
            seen,
            current,
        }
    } else {
        Place::WalkHead { walk, seen, tail }
    }))
}

// Load current's next.
pub fn walk_next(v: View, walk: Walk, seen: Word, current: NodeNumber) -> Stepped
    ensures { result ≡ walk_next_of v walk seen current }
{
    v.stays(Next::at(Place::WalkPrev {
        walk,
        seen,
        current,
        next: v.node.next.to_node(),
    }))
}

// Store current as next's prev, and go on from there.
pub fn walk_prev(v: View, walk: Walk, seen: Word, current: NodeNumber, next: NodeNumber) -> Stepped
    ensures { result ≡ walk_prev_of v walk seen current next }
{
    v.links(
        v.node.with_prev(current),
        Next::at(Place::WalkTail {
            walk,
            seen,
            current: next,
        }),
    )
}
