// A whole file, checked and replayed, with what it leaves unread of the caller's own slice: of a refused file, all.
ghost use Rattle.std.specs.Prelude.{◌≡◌};
ghost use Rattle.held.specs.Held.{file_shown_of, file_held_of};

use crate::replay::Held;
use schedule::FileStop;
use schedule::whole::{replay_file, rest_of_file};

// The stop may be the file's refusal, with nothing run and a fresh machine of one thread.
pub type FileHeld<'a> = Held<'a, FileStop>;

pub fn replay_file_held(s: &[u8]) -> FileHeld<'_>
    ensures { file_shown_of result ≡ file_held_of s.now }
{
    let done = replay_file(s);
    Held {
        machine: done.machine,
        run: done.run,
        stop: done.stop,
        rest: rest_of_file(s, done.stop, done.run),
    }
}
