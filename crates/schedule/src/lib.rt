// The schedule file, and the replay of its events.
//
//     byte 0      bytes 1..4                  byte 5     bytes 6..
//     version     length of what follows      threads    code, thread, code, thread, ..
//
//     file::check(s)                 the head, threads and events, or refused 10 to 14
//     replay::replay(machine, s)     any machine, a bare run of events: until one is refused or none is left
//     replay::rest(s, run)           the unread rest, the refused event included
//     replay::unread(machine, s)     the rest that the replay leaves
//     whole::replay_file(s)          check and replay: a refused file runs nothing
//     whole::nothing_run(refusal)    what a refused file comes to
//     whole::unread_of_file(s)       the rest that it leaves; of a refused file, all
//     cursor::next(cursor, s)        event by event, through the same states
#![tactic(auto)]

pub mod cursor;
pub mod file;
pub mod part;
pub mod replay;
pub mod whole;

pub use cursor::{Cursor, Moved, Seen};
pub use file::{FileRefusal, Head};
pub use replay::Replayed;
pub use whole::{FileReplayed, FileStop};
