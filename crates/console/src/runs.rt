// A schedule file's replay or trace on standard output, a page at a time.
ghost use Rattle.std.specs.Prelude.{◌≡◌, ◌*◌, ◌≤◌, length, take};
ghost use Rattle.schedule.specs.declared.file.FileRefusal.TheVariants.{TooMany};
ghost use Rattle.schedule.specs.File.{event_width, event_limit};
ghost use Rattle.schedule.specs.Whole.{file_replay_of};
ghost use Rattle.print.specs.Whole.{bytes_of, print_bytes};
ghost use Rattle.traced.specs.Whole.{thread_lines, trace_bytes};
ghost use Rattle.console.specs.Output.{page_size};
ghost use Rattle.console.specs.Runs.{printed_of, refused_printed, received_bytes};
ghost use Rattle.console.specs.Runs.{end_lines, ran_printed, file_bytes, file_printed};

use crate::input::Reading;
use crate::output::{flush, lay_line, write_line};
use crate::pages::{Lines, PAGE, fill};
use print::replayed::refused_line;
use schedule::file::{check, events};
use schedule::whole::nothing_run;
use schedule::{Cursor, FileRefusal, FileReplayed, Replayed};
use state::Machine;
use std::ops::ControlFlow;
use traced::thread::thread_line;
use word::ThreadNumber;

// What a file's replay came to, and how many bytes were written of it.
#[derive(Clone, Copy)]
pub struct Printed {
    pub replayed: FileReplayed,
    pub bytes: usize,
}

// A line for each thread.
#[tactic(auto, unfolding(traced::specs::Whole::thread_lines, print::specs::Whole::bytes_of))]
fn threads(m: Machine, page: &mut [u8; PAGE]) -> usize
    ensures upper_bound { result ≤ page_size }
    ensures page_after { take result page.new ≡ bytes_of (thread_lines m.count m) }
{
    let mut at = 0;
    for k in 0..m.count {
        at = lay_line(page, at, thread_line(m, ThreadNumber(k)));
    }
    at
}

// The trace's last lines, and how many bytes they are.
#[tactic(auto, unfolding(print::specs::Whole::bytes_of))]
fn last(
    rt: &(impl Print + Eprint + AllocGlobal),
    which: Lines,
    m: Machine,
    page: &mut [u8; PAGE],
) -> usize
    ensures value { result ≡ length (bytes_of (end_lines which m)) }
    ensures upper_bound { result ≤ page_size }
{
    match which {
        Lines::Plain => 0,
        Lines::Traced => {
            let at = threads(m, page);
            flush(rt, page, at)
        }
    }
}

// Page after page, until the replay is over. What is passed stands in no struct: of one that has the page in a field a
// proof knows no bytes after a call.
fn run(
    rt: &(impl Print + Eprint + AllocGlobal),
    which: Lines,
    first: Machine,
    s: &[u8],
    page: &mut [u8; PAGE],
) -> Printed
    requires { length s.now ≤ event_width * event_limit }
    ensures { result ≡ ran_printed which first s.now }
{
    let mut cursor = Cursor::start(first);
    let mut bytes = 0;
    loop {
        let filled = fill(which, cursor, s, page);
        bytes += flush(rt, page, filled.at);
        cursor = filled.cursor;
        if let ControlFlow::Break(stop) = filled.going {
            let machine = cursor.machine;
            let replayed = Replayed {
                machine,
                run: cursor.at,
                stop,
            };
            return Printed {
                replayed,
                bytes: bytes + last(rt, which, machine, page),
            };
        }
    }
}

// A refused file's one line.
#[tactic(auto, using(crate::specs::Written::refused_written))]
fn refused(rt: &(impl Print + Eprint + AllocGlobal), refusal: FileRefusal) -> Printed
    ensures { result ≡ refused_printed refusal }
{
    Printed {
        replayed: nothing_run(refusal),
        bytes: write_line(rt, refused_line(refusal.number())),
    }
}

#[tactic(auto, using(crate::specs::Printing::events_most, crate::specs::Printing::file_accepted))]
fn file(rt: &(impl Print + Eprint + AllocGlobal), which: Lines, s: &[u8]) -> Printed
    ensures { result ≡ file_printed which s.now }
{
    match check(s) {
        Err(refusal) => refused(rt, refusal),
        Ok(head) => {
            let machine = Machine::fresh(head.threads).machine;
            let mut page = [0u8; PAGE];
            run(rt, which, machine, events(s), &mut page)
        }
    }
}

// Document 01's print.
pub fn replay(rt: &(impl Print + Eprint + AllocGlobal), s: &[u8]) -> Printed
    ensures { result ≡ printed_of (file_replay_of s.now) (print_bytes s.now) }
{
    file(rt, Lines::Plain, s)
}

// The same with the waiters and the reader count, and a line for each thread at the end (docs/TRACE.md).
pub fn trace(rt: &(impl Print + Eprint + AllocGlobal), s: &[u8]) -> Printed
    ensures { result ≡ printed_of (file_replay_of s.now) (trace_bytes s.now) }
{
    file(rt, Lines::Traced, s)
}

// What is printed for a file of more bytes than are looked at.
pub fn too_long(rt: &(impl Print + Eprint + AllocGlobal)) -> Printed
    ensures { result ≡ refused_printed TooMany }
{
    refused(rt, FileRefusal::TooMany)
}

fn received(
    rt: &(impl Print + Eprint + AllocGlobal),
    which: Lines,
    reading: Reading,
    s: &[u8],
) -> usize
    ensures { result ≡ length (received_bytes (file_bytes which) reading s.now) }
{
    match reading {
        Reading::Unreadable => 0,
        Reading::Full => too_long(rt).bytes,
        Reading::Whole => match which {
            Lines::Plain => replay(rt, s).bytes,
            Lines::Traced => trace(rt, s).bytes,
        },
    }
}

// The print of a file by what was read of it, and how many bytes that is.
pub fn replay_received(
    rt: &(impl Print + Eprint + AllocGlobal),
    reading: Reading,
    s: &[u8],
) -> usize
    ensures { result ≡ length (received_bytes print_bytes reading s.now) }
{
    received(rt, Lines::Plain, reading, s)
}

// The trace, likewise.
pub fn trace_received(rt: &(impl Print + Eprint + AllocGlobal), reading: Reading, s: &[u8]) -> usize
    ensures { result ≡ length (received_bytes trace_bytes reading s.now) }
{
    received(rt, Lines::Traced, reading, s)
}
