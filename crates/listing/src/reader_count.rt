// The traced reader count: how many threads hold read, where document 01 has their number,
// and whether it is that there.
ghost use Rattle.std.specs.Prelude.{◌≡◌, ◌≤◌};
ghost use Rattle.state.specs.Machine.{thread_limit};
ghost use Rattle.listing.specs.ReaderCount.{reads_below, report_of, readers_of};

use crate::listing::{listing, node_at};
use state::{Machine, Refusal, good_count};
use word::{NodeNumber, Word};

// Where the number of readers sits. A pending downgrade stands for one reader.
#[derive(Clone, Copy)]
pub enum Sits {
    Nowhere,
    Word,
    Downgrade,
    Node(NodeNumber),
}

// The threads that hold read, where their number sits, and the raw number there.
#[derive(Clone, Copy)]
pub struct Readers {
    pub readers: u64,
    pub sits: Sits,
    pub raw: u64,
    pub agrees: bool,
}

// What is found, and whether it is the number that is due.
fn report(readers: u64, sits: Sits, raw: u64, due: u64) -> Readers
    ensures { result ≡ report_of readers sits raw due }
{
    Readers {
        readers,
        sits,
        raw,
        agrees: raw == due,
    }
}

// How many of the machine's threads hold read.
#[tactic(auto, using(crate::specs::Laws::reads_counted))]
fn reads_below(m: Machine) -> u64
    requires { m.count ≤ thread_limit }
    ensures number { result ≡ reads_below m.count m }
    ensures most { result ≤ thread_limit }
{
    let mut readers = 0;
    for t in &m.threads[..m.count as usize] {
        readers += t.holding.reads();
    }
    readers
}

// The readers of a machine, traced. Refused on a bad thread count, which is tested first,
// and where the listing is needed and refused. Where nobody reads the number sits nowhere, whatever a next holds.
pub fn reader_count(m: Machine) -> Result<Readers, Refusal>
    ensures { result ≡ readers_of m }
{
    if !good_count(m.count) {
        return Err(Refusal::Damaged);
    }
    let readers = reads_below(m);
    if readers == 0 {
        return Ok(report(0, Sits::Nowhere, 0, 0));
    }
    if !m.word.queued() {
        let due = Word::SINGLE * readers + Word::LOCKED;
        return Ok(report(readers, Sits::Word, m.word.0, due));
    }
    if m.word.downgraded() {
        return Ok(report(readers, Sits::Downgrade, 1, readers));
    }
    // the number is the oldest waiter's next
    let waiters = listing(m)?;
    let oldest = waiters.nodes[waiters.length - 1];
    let raw = node_at(m, oldest).unwrap().next.0;
    Ok(report(readers, Sits::Node(oldest), raw, Word::SINGLE * readers))
}
