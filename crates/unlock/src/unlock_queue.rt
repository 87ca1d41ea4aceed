// unlock_queue after its walk: release the queue lock, split the tail off, or take the whole queue.
ghost use Rattle.std.specs.Prelude.{◌≡◌};
ghost use Rattle.unlock.specs.UnlockQueue.{walk_again, queue_cas_of, split_prev_of, split_store_of};
ghost use Rattle.unlock.specs.UnlockQueue.{split_cas_of, split_restore_of, take_cas_of};

use state::{Next, Place, Stepped, View, Walk, Who};
use word::{NodeNumber, Word};

// Every failure finds the tail again, from the word reported.
fn walk_again(v: View, who: Who) -> Stepped
    ensures { result ≡ walk_again v who }
{
    v.stays(Next::walk_from(Walk::Queue { who }, v.word))
}

// Release the queue lock and leave waking to the holder.
pub fn queue_cas(v: View, who: Who, seen: Word) -> Stepped
    ensures { result ≡ queue_cas_of v who seen }
{
    if v.agrees(seen) {
        v.writes(seen.clear_queue_locked(), v.holding, Next::after_queue(who))
    } else {
        walk_again(v, who)
    }
}

// Load the tail's prev: none, it is the only waiter, and the queue is taken whole.
pub fn split_prev(v: View, who: Who, seen: Word, tail: NodeNumber) -> Stepped
    ensures { result ≡ split_prev_of v who seen tail }
{
    let prev = v.node.prev;
    v.stays(Next::at(if prev.is_none() {
        Place::TakeCas { who, seen, tail }
    } else {
        Place::SplitStore {
            who,
            seen,
            tail,
            prev,
        }
    }))
}

// Store prev as the head's tail: the tail is set aside.
pub fn split_store(v: View, who: Who, seen: Word, tail: NodeNumber, prev: NodeNumber) -> Stepped
    ensures { result ≡ split_store_of v who seen tail prev }
{
    v.links(
        v.node.with_tail(prev),
        Next::at(Place::SplitCas { who, seen, tail }),
    )
}

// Release the queue lock; then the tail alone is completed.
pub fn split_cas(v: View, who: Who, seen: Word, tail: NodeNumber) -> Stepped
    ensures { result ≡ split_cas_of v who seen tail }
{
    if v.agrees(seen) {
        v.writes(
            seen.clear_queue_locked(),
            v.holding,
            Next::at(Place::WakeStore {
                who,
                current: tail,
                prev: NodeNumber::NONE,
            }),
        )
    } else {
        v.stays(Next::at(Place::SplitRestore {
            who,
            seen,
            tail,
            reported: v.word,
        }))
    }
}

// Restore the OLD head's tail, and walk from the word that the failed compare reported.
pub fn split_restore(v: View, who: Who, seen: Word, tail: NodeNumber, reported: Word) -> Stepped
    ensures { result ≡ split_restore_of v who seen tail reported }
{
    v.links(
        v.node.with_tail(tail),
        Next::walk_from(Walk::Queue { who }, reported),
    )
}

// Take the queue whole: the word becomes one reader's after a downgrade, else free.
pub fn take_cas(v: View, who: Who, seen: Word, tail: NodeNumber) -> Stepped
    ensures { result ≡ take_cas_of v who seen tail }
{
    if v.agrees(seen) {
        v.writes(
            seen.taken(),
            v.holding,
            Next::at(Place::WakePrev { who, current: tail }),
        )
    } else {
        walk_again(v, who)
    }
}
