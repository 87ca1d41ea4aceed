// A replay's lines laid on a page, as many as surely fit, and where the replay then stands.
ghost use Rattle.std.specs.Prelude.{◌≡◌};
ghost use Rattle.print.specs.Line.{line_of};
ghost use Rattle.console.specs.Pages.{move_text, going_of, Fills};

use crate::output::{has_room, lay_line};
use print::Line;
use print::replayed::step_line;
use schedule::cursor::next;
use schedule::{Cursor, FileStop, Moved, Seen};
use state::Reply;
use std::ops::ControlFlow;
use traced::event::traced_line;

// The pages that lines are laid on.
pub(crate) const PAGE: usize = 65536;

// Which lines are printed of a replay: document 01's, or the trace's (docs/TRACE.md), the same with the waiters and the
// reader count, and a line for each thread at the end.
#[derive(Clone, Copy)]
pub(crate) enum Lines {
    Plain,
    Traced,
}

// Is there more to print, or is the replay over, and what stopped it?
pub(crate) type Going = ControlFlow<Result<(), FileStop>>;

// The cursor after the lines that were laid, and how many bytes those are.
#[derive(Clone, Copy)]
pub(crate) struct Filled {
    pub(crate) cursor: Cursor,
    pub(crate) at: usize,
    pub(crate) going: Going,
}

fn going_of(seen: Option<Seen>) -> Going
    ensures { result ≡ going_of seen }
{
    let Some(seen) = seen else {
        return ControlFlow::Break(Ok(()));
    };
    match seen.reply {
        Ok(_) => ControlFlow::Continue(()),
        Err(refusal) => ControlFlow::Break(Err(FileStop::Refused(refusal))),
    }
}

impl Lines {
    // The line of a move of a cursor that stood at event `at`.
    fn of_move(self, at: usize, moved: Moved) -> Line
        ensures { result ≡ line_of (move_text self at moved) }
    {
        match self {
            Lines::Plain => step_line(at, moved),
            Lines::Traced => traced_line(at, moved),
        }
    }
}

// A line for each event from the cursor on, while any line fits and until the replay is over.
pub(crate) fn fill(which: Lines, first: Cursor, s: &[u8], page: &mut [u8; PAGE]) -> Filled
    ensures { Fills which first s.now page.new result }
{
    let mut cursor = first;
    let mut at = 0;
    while has_room(page.len(), at) {
        let moved = next(cursor, s);
        at = lay_line(page, at, which.of_move(cursor.at, moved));
        cursor = moved.cursor;
        let going = going_of(moved.seen);
        if going.is_break() {
            return Filled { cursor, at, going };
        }
    }
    Filled {
        cursor,
        at,
        going: ControlFlow::Continue(()),
    }
}
