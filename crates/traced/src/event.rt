// The trace's lines: an event's with the waiters newest first and the reader count where it sits (docs/TRACE.md).
ghost use Rattle.std.specs.Prelude.{◌≡◌};
ghost use Rattle.print.specs.Line.{put_all, line_of};
ghost use Rattle.state.specs.Machine.{thread_limit};
ghost use Rattle.traced.specs.Event.{node_text, nodes_text, refusal_text, listed_text, waiters_text, sits_text};
ghost use Rattle.traced.specs.Event.{raw_text, counted_text, readers_text, state_text, traced_text};

use listing::listing::listing;
use listing::reader_count::reader_count;
use listing::{Readers, Sits, Waiters};
use print::Line;
use print::replayed::step_line;
use schedule::{Moved, Seen};
use state::{Machine, Refusal};
use word::NodeNumber;

// Past the waiters' length their array has none, and none has no text.
fn put_node(line: Line, n: NodeNumber) -> Line
    ensures { result ≡ put_all line (node_text n) }
{
    if n.is_none() {
        line
    } else {
        line.text(b" ").decimal(n.0)
    }
}

fn put_nodes(mut line: Line, w: Waiters) -> Line
    ensures { result ≡ put_all line (nodes_text thread_limit w.nodes) }
{
    for n in &w.nodes {
        line = put_node(line, *n);
    }
    line
}

fn put_refusal(line: Line, refusal: Refusal) -> Line
    ensures { result ≡ put_all line (refusal_text refusal) }
{
    line.text(b" refused ").decimal(refusal.number() as u64)
}

fn put_listed(line: Line, w: Waiters) -> Line
    ensures { result ≡ put_all line (listed_text w) }
{
    if w.length == 0 {
        line.text(b" -")
    } else {
        put_nodes(line, w)
    }
}

fn put_waiters(line: Line, waiters: Result<Waiters, Refusal>) -> Line
    ensures { result ≡ put_all line (waiters_text waiters) }
{
    let headed = line.text(b" | waiters");
    match waiters {
        Ok(w) => put_listed(headed, w),
        Err(refusal) => put_refusal(headed, refusal),
    }
}

fn put_sits(line: Line, sits: Sits) -> Line
    ensures { result ≡ put_all line (sits_text sits) }
{
    match sits {
        Sits::Nowhere => line,
        Sits::Word => line.text(b" in word"),
        Sits::Downgrade => line.text(b" in DOWNGRADED"),
        Sits::Node(n) => line.text(b" in node ").decimal(n.0),
    }
}

// The raw number, where it is not the one that is due.
fn put_raw(line: Line, r: Readers) -> Line
    ensures { result ≡ put_all line (raw_text r) }
{
    if r.agrees {
        line
    } else {
        line.text(b", wrong: ").decimal(r.raw)
    }
}

fn put_counted(line: Line, r: Readers) -> Line
    ensures { result ≡ put_all line (counted_text r) }
{
    if r.readers == 0 {
        line.text(b" -")
    } else {
        put_raw(put_sits(line.text(b" ").decimal(r.readers), r.sits), r)
    }
}

fn put_readers(line: Line, readers: Result<Readers, Refusal>) -> Line
    ensures { result ≡ put_all line (readers_text readers) }
{
    let headed = line.text(b" | readers");
    match readers {
        Ok(r) => put_counted(headed, r),
        Err(refusal) => put_refusal(headed, refusal),
    }
}

fn put_state(line: Line, m: Machine) -> Line
    ensures { result ≡ put_all line (state_text m) }
{
    put_readers(put_waiters(line, listing(m)), reader_count(m))
}

// The line of one step of a cursor: it stood at event `at` before it moved. An accepted event's is document 01's, and
// then the state.
pub fn traced_line(at: usize, moved: Moved) -> Line
    ensures { result ≡ line_of (traced_text at moved) }
{
    let line = step_line(at, moved);
    match moved.seen {
        Some(Seen { reply: Ok(_), .. }) => put_state(line, moved.cursor.machine),
        Some(Seen { reply: Err(_), .. }) | None => line,
    }
}
