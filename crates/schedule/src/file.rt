// The schedule file's head, checked in document 01's order: 10 size, 11 version, 12 length, 13 threads, 14 events.
ghost use Rattle.std.specs.Prelude.{◌≡◌, ◌≤◌, length, drop};
ghost use Rattle.schedule.specs.File.{header_length, right_length, file_number, checked_of};

use crate::part::from;
use state::good_count;

pub const VERSION: u8 = 1;
// The version and the length's four bytes: the length counts what follows them.
pub const COUNTED_FROM: usize = 5;

pub const HEADER: usize = 6;

pub const WIDTH: usize = 2;

pub const LIMIT: usize = 30000;

// Each is its number.
#[derive(Clone, Copy)]
pub enum FileRefusal {
    TooShort = 10,
    Version = 11,
    Length = 12,
    Threads = 13,
    TooMany = 14,
}

// What an accepted file says of itself: its threads, and how many events follow the head.
#[derive(Clone, Copy)]
pub struct Head {
    pub threads: u8,
    pub events: usize,
}

impl FileRefusal {
    // As `Refusal::number`.
    pub fn number(self) -> u8
        ensures { result ≡ file_number self }
    {
        self as u8
    }
}

// The length is the file's size less 5, and leaves whole events after the thread count.
fn right_length(s: &[u8]) -> bool
    requires { header_length ≤ length s.now }
    ensures { result ≡ right_length s.now }
{
    let stated = u32::from_be_bytes([s[1], s[2], s[3], s[4]]) as usize;
    stated == s.len() - COUNTED_FROM && stated % WIDTH == HEADER - COUNTED_FROM
}

#[tactic(auto, unfolding(crate::specs::File::checked_of))]
pub fn check(s: &[u8]) -> Result<Head, FileRefusal>
    ensures { result ≡ checked_of s.now }
{
    if s.len() < HEADER {
        return Err(FileRefusal::TooShort);
    }
    if s[0] != VERSION {
        return Err(FileRefusal::Version);
    }
    if !right_length(s) {
        return Err(FileRefusal::Length);
    }
    let threads = s[COUNTED_FROM];
    if !good_count(threads) {
        return Err(FileRefusal::Threads);
    }
    let events = (s.len() - HEADER) / WIDTH;
    if LIMIT < events {
        return Err(FileRefusal::TooMany);
    }
    Ok(Head { threads, events })
}

// The events' bytes: what follows the head.
pub fn events(s: &[u8]) -> &[u8]
    ensures { result.now ≡ drop header_length s.now }
{
    from(s, HEADER)
}
