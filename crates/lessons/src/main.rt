// The trace of every lesson's schedule (lessons/), each under its name.
#![tactic(auto)]

use console::input::{ENOUGH, receive_named};
use console::output::write_line;
use console::runs::trace_received;
use print::Line;
use std::rt::Files;

const LESSONS: [&str; 7] = [
    "weak-compare.schedule",
    "reader-count.schedule",
    "stale-next.schedule",
    "barging.schedule",
    "retracted-downgrade.schedule",
    "failed-split.schedule",
    "lost-wake-up.schedule",
];

fn lesson(rt: &(impl Files + Print + Eprint + AllocGlobal), name: &str) {
    write_line(rt, Line::blank().text(b"== ").text(name.as_bytes()));
    let mut file = [0u8; ENOUGH];
    let got = receive_named(rt, name.as_bytes(), &mut file);
    trace_received(rt, got.reading, &file[..got.length]);
}

fn main(rt: HostRuntime) {
    for name in LESSONS {
        lesson(&rt, name);
    }
}
