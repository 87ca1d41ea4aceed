// A page: a run of bytes lent by the caller, in which lines are laid one after the other, to be written at once.
ghost use Rattle.std.specs.Prelude.{◌≡◌, ◌+◌, ◌≤◌, length};
ghost use Rattle.print.specs.Line.{line_width};
ghost use Rattle.print.specs.Page.{copy_of, fits_of, laid_of, after_of};

use crate::line::{Line, WIDTH};

// Is there room for so many bytes of a line from `at` on?
fn fits(size: usize, at: usize, text: usize) -> bool
    ensures { result ≡ fits_of size at text }
{
    text <= WIDTH && at <= size && text <= size - at
}

fn copy(page: &mut [u8], at: usize, line: Line)
    requires { (line.length ≤ line_width) × (at + line.length ≤ length page.old) }
    ensures { page.new ≡ copy_of page.old at line.bytes line.length }
{
    page[at..at + line.length].copy_from_slice(&line.bytes[..line.length]);
}

// Lays a line's text at `at`, and answers where the next goes. One that does not fit is not laid.
pub fn lay(page: &mut [u8], at: usize, line: Line) -> usize
    ensures value { result ≡ after_of (length page.old) at line }
    ensures page_after { page.new ≡ laid_of page.old at line }
{
    if fits(page.len(), at, line.length) {
        copy(page, at, line);
        at + line.length
    } else {
        at
    }
}
