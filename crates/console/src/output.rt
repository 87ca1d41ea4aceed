// Lines laid on a page that a caller lends, and pages written to standard output.
ghost use Rattle.std.specs.Prelude.{◌≡◌, length};
ghost use Rattle.print.specs.Page.{laid_of, after_of};
ghost use Rattle.console.specs.Output.{has_room, ended_of, written_of, line_written};

use print::Line;
use print::line::WIDTH;
use print::page::lay;
use std::io;

// Why, without the number that std sets after it: `No such file or directory (os error 2)`.
fn reason(error: &str) -> &str {
    match error.split_once(" (os error ") {
        Some((why, _)) => why,
        None => error,
    }
}

fn tell(rt: &(impl Eprint + AllocGlobal), what: &str, error: io::Error) -> io::Result<()> {
    let text = error.to_string(rt.alloc())?;
    let why = reason(text.as_str());
    eprintln!(rt; "{what}: {why}")
}

// Says on standard error what failed, and why. A message that fails itself is left out.
pub(crate) fn fail(rt: &(impl Eprint + AllocGlobal), what: &str, error: io::Error) {
    let _ = tell(rt, what, error);
}

fn write(rt: &(impl Print + Eprint + AllocGlobal), bytes: &[u8]) {
    if let Err(error) = rt.write_all(bytes) {
        fail(rt, "standard output", error);
    }
}

// Writes the page's first `at` bytes, or all where it has fewer, and answers how many those are.
pub(crate) fn flush(rt: &(impl Print + Eprint + AllocGlobal), page: &[u8], at: usize) -> usize
    ensures { result ≡ written_of (length page.now) at }
{
    let length = at.min(page.len());
    write(rt, &page[..length]);
    length
}

// Does any line fit from `at` on? (print's `fits`, at the widest line.)
pub(crate) fn has_room(size: usize, at: usize) -> bool
    ensures { result ≡ has_room size at }
{
    at <= size && WIDTH <= size - at
}

// Lays a line and its end, and answers where the next goes.
pub(crate) fn lay_line(page: &mut [u8], at: usize, line: Line) -> usize
    ensures value { result ≡ after_of (length page.old) at (ended_of line) }
    ensures page_after { page.new ≡ laid_of page.old at (ended_of line) }
{
    lay(page, at, line.text(b"\n"))
}

// One line by itself, and how many bytes that is with its end.
pub fn write_line(rt: &(impl Print + Eprint + AllocGlobal), line: Line) -> usize
    ensures { result ≡ line_written line }
{
    let mut page = [0u8; WIDTH];
    let at = lay_line(&mut page, 0, line);
    flush(rt, &page, at)
}
