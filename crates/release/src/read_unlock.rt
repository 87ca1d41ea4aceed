// read_unlock and read_unlock_contended: the count goes down in the word, or in the oldest waiter's next.
ghost use Rattle.std.specs.Prelude.{◌≡◌};
ghost use Rattle.release.specs.ReadUnlock.{read_unlock_judged, read_unlock_load_of};
ghost use Rattle.release.specs.ReadUnlock.{read_unlock_cas_of, after_subtract, subtract_of};

use state::{Answer, Next, Place, Refusal, Stepped, View, Walk};
use word::{NodeNumber, ReadUnlocked, Word};

fn read_unlock_judged(v: View, seen: Word) -> Stepped
    ensures { result ≡ read_unlock_judged v seen }
{
    match seen.read_unlock() {
        ReadUnlocked::To(_) => v.stays(Next::at(Place::ReadUnlockCas { seen })),
        ReadUnlocked::Contended => v.stays(Next::walk_from(Walk::ReadUnlock, seen)),
        ReadUnlocked::Refused => Err(Refusal::Damaged),
    }
}

pub fn read_unlock_load(v: View) -> Stepped
    ensures { result ≡ read_unlock_load_of v }
{
    read_unlock_judged(v, v.word)
}

// A retracted downgrade is released by this compare too, and wakes nobody.
pub fn read_unlock_cas(v: View, seen: Word) -> Stepped
    ensures { result ≡ read_unlock_cas_of v seen }
{
    if v.agrees(seen)
        && let ReadUnlocked::To(to) = seen.read_unlock()
    {
        v.writes(to, v.holding.released_read(), Next::end(Answer::Done))
    } else {
        read_unlock_judged(v, v.word)
    }
}

// The last reader goes on to release; the others are done.
fn after_subtract(seen: Word, left: u64) -> Next
    ensures { result ≡ after_subtract seen left }
{
    if left == 0 {
        Next::at(Place::ReleaseCas { seen })
    } else {
        Next::end(Answer::Done)
    }
}

// Take this reader off the count in the tail's next; a raw next below 16 counts none.
pub fn subtract(v: View, seen: Word, tail: NodeNumber) -> Stepped
    ensures { result ≡ subtract_of v seen tail }
{
    match v.node.next.0.checked_sub(Word::SINGLE) {
        Some(left) => v.subtracts(
            v.node.with_next(Word(left)),
            v.holding.released_read(),
            after_subtract(seen, left),
        ),
        None => Err(Refusal::Damaged),
    }
}
