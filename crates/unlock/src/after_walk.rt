// The last access of find_tail_and_add_backlinks, the store of the tail in the head, and the caller's local code that
// follows it in the same step.
ghost use Rattle.std.specs.Prelude.{◌≡◌};
ghost use Rattle.unlock.specs.AfterWalk.{tail_marked, tail_found, walked_of, walk_head_of};

use state::{Mark, Next, Node, Place, Refusal, Stepped, View, Walk, Who};
use word::{NodeNumber, Word};

// unlock_queue wakes the tail alone where it is a writer's and no downgrade is asked for; else all.
fn tail_marked(v: View, node: Node, who: Who, seen: Word, tail: NodeNumber) -> Stepped
    ensures { result ≡ tail_marked v node who seen tail }
{
    match v.mark {
        Mark::Missing => Err(Refusal::Damaged),
        Mark::Writer if !seen.downgraded() => {
            v.links(node, Next::at(Place::SplitPrev { who, seen, tail }))
        }
        Mark::Reader | Mark::Writer => {
            v.links(node, Next::at(Place::TakeCas { who, seen, tail }))
        }
    }
}

// unlock_queue has its tail: with LOCKED set and no downgrade asked for, waking is left to the holder.
fn tail_found(v: View, node: Node, who: Who, seen: Word, tail: NodeNumber) -> Stepped
    ensures { result ≡ tail_found v node who seen tail }
{
    if seen.locked() && !seen.downgraded() {
        v.links(node, Next::at(Place::QueueCas { who, seen }))
    } else {
        tail_marked(v, node, who, seen, tail)
    }
}

fn walked(v: View, node: Node, walk: Walk, seen: Word, tail: NodeNumber) -> Stepped
    ensures { result ≡ walked_of v node walk seen tail }
{
    match walk {
        Walk::Queue { who } => tail_found(v, node, who, seen, tail),
        Walk::ReadUnlock => v.links(node, Next::at(Place::Subtract { seen, tail })),
        Walk::Downgrade => v.links(
            node,
            Next::at(Place::WakePrev {
                who: Who::Leaver,
                current: tail,
            }),
        ),
    }
}

pub fn walk_head(v: View, walk: Walk, seen: Word, tail: NodeNumber) -> Stepped
    ensures { result ≡ walk_head_of v walk seen tail }
{
    walked(v, v.node.with_tail(tail), walk, seen, tail)
}
