// Document 01's lines: event, thread, answer, woken, word; then `end N` or `refused N`.
ghost use Rattle.std.specs.Prelude.{◌≡◌};
ghost use Rattle.state.specs.Answer.{answer_word};
ghost use Rattle.print.specs.Line.{put_all, line_of};
ghost use Rattle.print.specs.Replayed.{woken_text, event_text, end_text, refused_text, step_text};

use crate::line::Line;
use schedule::{Moved, Seen};
use state::{Accepted, Answer};
use word::{ThreadNumber, Word};

fn put_answer(line: Line, answer: Answer) -> Line
    ensures { result ≡ put_all line (answer_word answer) }
{
    let word = answer.text();
    line.text(&word.bytes[..word.length])
}

fn put_woken(line: Line, woken: Option<ThreadNumber>) -> Line
    ensures { result ≡ put_all line (woken_text woken) }
{
    match woken {
        None => line.text(b"-"),
        Some(t) => line.decimal(t.0 as u64),
    }
}

// An event's line, without its end.
pub fn event_line(
    at: usize,
    thread: ThreadNumber,
    answer: Answer,
    woken: Option<ThreadNumber>,
    word: Word,
) -> Line
    ensures { result ≡ line_of (event_text at thread answer woken word) }
{
    let threaded = Line::blank()
        .decimal(at as u64)
        .text(b" ")
        .decimal(thread.0 as u64)
        .text(b" ");
    let answered = put_answer(threaded, answer).text(b" ");
    put_woken(answered, woken).text(b" ").decimal(word.0)
}

pub fn end_line(run: usize) -> Line
    ensures { result ≡ line_of (end_text run) }
{
    Line::blank().text(b"end ").decimal(run as u64)
}

// By its number, since an event's refusal and a file's are two enums.
pub fn refused_line(number: u8) -> Line
    ensures { result ≡ line_of (refused_text number) }
{
    Line::blank().text(b"refused ").decimal(number as u64)
}

// The line of one step of a cursor: it stood at event `at` before it moved.
pub fn step_line(at: usize, moved: Moved) -> Line
    ensures { result ≡ line_of (step_text at moved) }
{
    let Some(Seen { thread, reply, .. }) = moved.seen else {
        return end_line(at);
    };
    match reply {
        Ok(Accepted { answer, woken }) => event_line(
            at,
            thread,
            answer,
            woken,
            moved.cursor.machine.word,
        ),
        Err(refusal) => refused_line(refusal.number()),
    }
}
