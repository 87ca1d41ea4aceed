// The word's flags: tests, and the changes that the step rules name.
ghost use Rattle.std.specs.Prelude.{◌≡◌, ◌+◌, ◌^◌, ◌<◌, false};
ghost use Rattle.word.specs.Flags.{has, set_flag, clear_flag};
ghost use Rattle.word.specs.Flags.{locked, queued, queue_locked, downgraded, set_locked};
ghost use Rattle.word.specs.Flags.{clear_locked, set_queue_locked, clear_queue_locked};
ghost use Rattle.word.specs.Flags.{set_downgraded, clear_downgraded, without_flags, to_node};

use crate::number::NodeNumber;

#[derive(Clone, Copy, PartialEq, Eq)]
pub struct Word(pub u64);

impl Word {
    pub const LOCKED: u64 = 1;

    pub const QUEUED: u64 = 2;

    pub const QUEUE_LOCKED: u64 = 4;

    pub const DOWNGRADED: u64 = 8;

    pub const SINGLE: u64 = 16;

    // A flag is one of the four bits above.
    fn has(self, flag: u64) -> bool
        requires { 0 < flag }
        ensures { result ≡ has flag self }
    {
        self.0 / flag % 2 == 1
    }

    fn with_flag(self, flag: u64) -> Word
        requires some { 0 < flag }
        requires room { has flag self ≡ false → self.0 + flag < 2 ^ 64 }
        ensures { result ≡ set_flag flag self }
    {
        if self.has(flag) {
            self
        } else {
            Word(self.0 + flag)
        }
    }

    fn without_flag(self, flag: u64) -> Word
        requires { 0 < flag }
        ensures { result ≡ clear_flag flag self }
    {
        if self.has(flag) {
            Word(self.0 - flag)
        } else {
            self
        }
    }

    pub fn locked(self) -> bool
        ensures { result ≡ locked self }
    {
        self.has(Word::LOCKED)
    }

    pub fn queued(self) -> bool
        ensures { result ≡ queued self }
    {
        self.has(Word::QUEUED)
    }

    pub fn queue_locked(self) -> bool
        ensures { result ≡ queue_locked self }
    {
        self.has(Word::QUEUE_LOCKED)
    }

    pub fn downgraded(self) -> bool
        ensures { result ≡ downgraded self }
    {
        self.has(Word::DOWNGRADED)
    }

    pub fn set_locked(self) -> Word
        ensures { result ≡ set_locked self }
    {
        self.with_flag(Word::LOCKED)
    }

    pub fn clear_locked(self) -> Word
        ensures { result ≡ clear_locked self }
    {
        self.without_flag(Word::LOCKED)
    }

    pub fn set_queue_locked(self) -> Word
        ensures { result ≡ set_queue_locked self }
    {
        self.with_flag(Word::QUEUE_LOCKED)
    }

    pub fn clear_queue_locked(self) -> Word
        ensures { result ≡ clear_queue_locked self }
    {
        self.without_flag(Word::QUEUE_LOCKED)
    }

    pub fn set_downgraded(self) -> Word
        ensures { result ≡ set_downgraded self }
    {
        self.with_flag(Word::DOWNGRADED)
    }

    pub fn clear_downgraded(self) -> Word
        ensures { result ≡ clear_downgraded self }
    {
        self.without_flag(Word::DOWNGRADED)
    }

    // What a node's next is filled with: the number part alone, still sixteenfold.
    pub fn without_flags(self) -> Word
        ensures { result ≡ without_flags self }
    {
        Word(self.0 / Word::SINGLE * Word::SINGLE)
    }

    // The node that a queued word, or a next, links to.
    pub fn to_node(self) -> NodeNumber
        ensures { result ≡ to_node self }
    {
        NodeNumber(self.0 / Word::SINGLE)
    }
}
