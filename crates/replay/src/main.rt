// Document 01's print of a schedule file: a line for each event, then `end N` or `refused N`.
#![tactic(auto)]

use console::input::{ENOUGH, receive};
use console::runs::replay_received;

fn main(rt: HostRuntime) {
    let mut file = [0u8; ENOUGH];
    let got = receive(&rt, &mut file);
    replay_received(&rt, got.reading, &file[..got.length]);
}
