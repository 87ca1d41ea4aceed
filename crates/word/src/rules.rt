// What a word becomes: queue.rs's write_lock and read_lock, read_unlock's update,
// and the words that the compares write.
ghost use Rattle.std.specs.Prelude.{◌≡◌, ◌≤◌};
ghost use Rattle.word.specs.Base.{pick};
ghost use Rattle.word.specs.Rules.{write_lock_of, read_lock_of, read_unlock_of, registered_of, taken_of};

use crate::flags::Word;
use crate::number::ThreadNumber;

// The word of one writer, with nobody waiting.
pub const ONE_WRITER: Word = Word(1);

// The word of one reader, and of a writer that has become one.
pub const ONE_READER: Word = Word(17);

// What read_unlock's weak compare writes; Contended where the count stands in the oldest waiter, Refused where the word
// counts no reader. Three answers, so neither an Option nor a Result.
#[derive(Clone, Copy)]
pub enum ReadUnlocked {
    To(Word),
    Contended,
    Refused,
}

// The flag where it is kept, else 0.
fn kept(keep: bool, flag: u64) -> u64
    ensures { (result ≡ pick keep flag 0) × (result ≤ flag) }
{
    if keep { flag } else { 0 }
}

impl Word {
    pub const FREE: Word = Word(0);

    pub fn write_lock(self) -> Option<Word>
        ensures { result ≡ write_lock_of self }
    {
        if self.locked() {
            None
        } else {
            Some(self.set_locked())
        }
    }

    pub fn read_lock(self) -> Option<Word>
        ensures { result ≡ read_lock_of self }
    {
        if self.queued() || self == ONE_WRITER {
            return None;
        }
        let more = self.0.checked_add(Word::SINGLE)?;
        Some(Word(more).set_locked())
    }

    pub fn read_unlock(self) -> ReadUnlocked
        ensures { result ≡ read_unlock_of self }
    {
        if !self.queued() {
            return match self.0.checked_sub(ONE_READER.0) {
                None => ReadUnlocked::Refused,
                Some(0) => ReadUnlocked::To(Word::FREE),
                Some(less) => ReadUnlocked::To(Word(less).set_locked()),
            };
        }
        if self.downgraded() {
            ReadUnlocked::To(self.clear_downgraded().clear_locked())
        } else {
            ReadUnlocked::Contended
        }
    }

    // The word by which thread `me` registers its node on this one.
    pub fn registered(self, me: ThreadNumber) -> Word
        ensures { result ≡ registered_of self me }
    {
        let flags = Word::QUEUED
            + kept(self.downgraded(), Word::DOWNGRADED)
            + kept(self.locked(), Word::LOCKED)
            + kept(self.queued(), Word::QUEUE_LOCKED);
        Word(me.node().0 * Word::SINGLE + flags)
    }

    // The word that a queue taken whole leaves behind: one reader after a downgrade, else free.
    pub fn taken(self) -> Word
        ensures { result ≡ taken_of self }
    {
        if self.downgraded() {
            ONE_READER
        } else {
            Word::FREE
        }
    }
}
