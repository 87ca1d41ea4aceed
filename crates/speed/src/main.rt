// Replays a schedule file a hundred times over and prints nothing of it, so that the replay alone can be timed.
#![tactic(auto)]

use console::Reading;
use console::input::{ENOUGH, receive};
use console::output::write_line;
use print::Line;
use schedule::whole::replay_file;

const TIMES: u64 = 100;

fn over(s: &[u8]) -> u64 {
    let mut run: u64 = 0;
    for _ in 0..TIMES {
        run = run.saturating_add(replay_file(s).run as u64);
    }
    run
}

fn tell(rt: &(impl Print + Eprint + AllocGlobal), events: u64) {
    write_line(rt, Line::blank().decimal(events).text(b" events"));
}

fn main(rt: HostRuntime) {
    let mut file = [0u8; ENOUGH];
    let got = receive(&rt, &mut file);
    match got.reading {
        Reading::Unreadable => (),
        Reading::Full => tell(&rt, 0),
        Reading::Whole => tell(&rt, over(&file[..got.length])),
    }
}
