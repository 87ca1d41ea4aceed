// The trace of a schedule file (docs/TRACE.md): document 01's lines with the waiters newest first and the reader count
// where it sits, and a line for each thread at the end.
#![tactic(auto)]

use console::input::{ENOUGH, receive};
use console::runs::trace_received;

fn main(rt: HostRuntime) {
    let mut file = [0u8; ENOUGH];
    let got = receive(&rt, &mut file);
    trace_received(&rt, got.reading, &file[..got.length]);
}
