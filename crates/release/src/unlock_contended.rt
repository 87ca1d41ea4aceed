// unlock_contended: release the lock, and take the queue lock with it unless somebody has it.
ghost use Rattle.std.specs.Prelude.{◌≡◌};
ghost use Rattle.release.specs.UnlockContended.{released_to, after_release, release_cas_of};

use state::{Answer, Next, Place, Stepped, View, Walk, Who};
use word::Word;

// The word that releases the one seen.
fn released_to(seen: Word) -> Word
    ensures { result ≡ released_to seen }
{
    let free = seen.clear_locked();
    if seen.queue_locked() {
        free
    } else {
        free.set_queue_locked()
    }
}

// Whoever holds the queue lock wakes; if that is now us, unlock the queue.
fn after_release(seen: Word, to: Word) -> Next
    ensures { result ≡ after_release seen to }
{
    if seen.queue_locked() {
        Next::end(Answer::Done)
    } else {
        Next::walk_from(Walk::Queue { who: Who::Leaver }, to)
    }
}

pub fn release_cas(v: View, seen: Word) -> Stepped
    ensures { result ≡ release_cas_of v seen }
{
    if v.agrees(seen) {
        let to = released_to(seen);
        v.writes(to, v.holding.released_write(), after_release(seen, to))
    } else {
        v.stays(Next::at(Place::ReleaseCas { seen: v.word }))
    }
}
