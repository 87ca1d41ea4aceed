// Document 01's worked replays and the edges of its limits, each with what was expected and what was found.
#![tactic(auto)]

mod files;
mod moves;
mod replays;
mod sheet;

use sheet::Sheet;

fn main(rt: HostRuntime) {
    let mut sheet = Sheet::new(&rt);
    sheet.replays();
    sheet.files();
    sheet.total();
}
