// downgrade and downgrade_slow: the writer becomes a reader,
// and the waiters are woken by it or by the queue-lock owner.
ghost use Rattle.std.specs.Prelude.{◌≡◌};
ghost use Rattle.release.specs.Downgrade.{downgrade_cas_of, downgraded_word, after_downgrade, downgrade_slow_cas_of};

use state::{Answer, Next, Place, Stepped, View, Walk};
use word::{ONE_READER, ONE_WRITER, Word};

pub fn downgrade_cas(v: View) -> Stepped
    ensures { result ≡ downgrade_cas_of v }
{
    if v.word == ONE_WRITER {
        v.writes(ONE_READER, v.holding.downgraded(), Next::end(Answer::Done))
    } else {
        v.stays(Next::at(Place::DowngradeSlowCas { seen: v.word }))
    }
}

// The word that downgrades the one seen: asked for where the queue is locked, else one reader's.
fn downgraded_word(seen: Word) -> Word
    ensures { result ≡ downgraded_word seen }
{
    if seen.queue_locked() {
        seen.set_downgraded()
    } else {
        ONE_READER
    }
}

// The queue that was taken off starts at the word seen: it is walked, then completed.
fn after_downgrade(seen: Word) -> Next
    ensures { result ≡ after_downgrade seen }
{
    if seen.queue_locked() {
        Next::end(Answer::Done)
    } else {
        Next::walk_from(Walk::Downgrade, seen)
    }
}

pub fn downgrade_slow_cas(v: View, seen: Word) -> Stepped
    ensures { result ≡ downgrade_slow_cas_of v seen }
{
    if v.agrees(seen) {
        v.writes(
            downgraded_word(seen),
            v.holding.downgraded(),
            after_downgrade(seen),
        )
    } else {
        v.stays(Next::at(Place::DowngradeSlowCas { seen: v.word }))
    }
}
