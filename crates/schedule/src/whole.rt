// A whole file: checked, then replayed from a fresh machine of its threads. A refused file runs nothing.
ghost use Rattle.std.specs.Prelude.{◌≡◌};
ghost use Rattle.schedule.specs.Whole.{file_refused_of, file_replay_of, file_rest_by, file_rest_of};

use crate::file::{FileRefusal, check, events};
use crate::replay::{Replayed, replay, rest};
use state::{Machine, Refusal};

// An event's refusal, or the file's.
#[derive(Clone, Copy)]
pub enum FileStop {
    Refused(Refusal),
    File(FileRefusal),
}

pub type FileReplayed = Replayed<FileStop>;

// What a refused file comes to, on a fresh machine of one thread.
pub fn nothing_run(refusal: FileRefusal) -> FileReplayed
    ensures { result ≡ file_refused_of refusal }
{
    Replayed {
        machine: Machine::fresh(1).machine,
        run: 0,
        stop: Err(FileStop::File(refusal)),
    }
}

pub fn replay_file(s: &[u8]) -> FileReplayed
    ensures { result ≡ file_replay_of s.now }
{
    match check(s) {
        Ok(head) => {
            let done = replay(Machine::fresh(head.threads).machine, events(s));
            Replayed {
                machine: done.machine,
                run: done.run,
                stop: done.stop.map_err(FileStop::Refused),
            }
        }
        Err(refusal) => nothing_run(refusal),
    }
}

// A refused file is handed back whole; of another, what its replay left.
pub fn rest_of_file(s: &[u8], stop: Result<(), FileStop>, run: usize) -> &[u8]
    ensures { result.now ≡ file_rest_by stop run s.now }
{
    match stop {
        Err(FileStop::File(_)) => s,
        Ok(()) | Err(FileStop::Refused(_)) => rest(events(s), run),
    }
}

pub fn unread_of_file(s: &[u8]) -> &[u8]
    ensures { result.now ≡ file_rest_of s.now }
{
    let done = replay_file(s);
    rest_of_file(s, done.stop, done.run)
}
