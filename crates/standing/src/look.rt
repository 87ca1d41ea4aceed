// One thread's record, one node's prev, and whether a node is among others; all total.
ghost use Rattle.std.specs.Prelude.{false, ◌≡◌};
ghost use Rattle.standing.specs.Look.{completed_of, prev_of, among, met_from, record_of};

use listing::Waiters;
use state::{Machine, Refusal, Thread};
use word::{NodeNumber, ThreadNumber};

// Blank where there is no such thread.
pub fn record_of(m: Machine, t: ThreadNumber) -> Thread
    ensures { result ≡ record_of m t.0 }
{
    m.threads
        .get(t.0 as usize)
        .copied()
        .unwrap_or(Thread::blank())
}

// Not completed where there is no such thread.
pub(crate) fn completed_of(m: Machine, t: ThreadNumber) -> bool
    ensures { result ≡ completed_of m t.0 }
{
    m.nodes.get(t.0 as usize).is_some_and(|n| n.completed)
}

// None where there is no such node.
fn prev_of(m: Machine, at: NodeNumber) -> NodeNumber
    ensures { result ≡ prev_of m at }
{
    at.slot(m.count)
        .and_then(|k| m.nodes.get(k))
        .map_or(NodeNumber::NONE, |n| n.prev)
}

// Is a node one of the waiters? Node none is, where their array has room or the listing is refused. (By `is_ok_and`
// the check found no proof.)
pub(crate) fn listed(waiters: Result<Waiters, Refusal>, n: NodeNumber) -> bool
    ensures { result ≡ among waiters n }
{
    match waiters {
        Ok(w) => w.nodes.contains(&n),
        Err(_) => n.is_none(),
    }
}

// Is a node met from another by prev, in so many visits?
#[tactic(auto, using(crate::proofs::Among::met_search))]
pub(crate) fn met(m: Machine, n: NodeNumber, from: NodeNumber, visits: u8) -> bool
    ensures { result ≡ met_from visits m n from false }
{
    let mut at = from;
    for _ in 0..visits {
        if at == n {
            return true;
        }
        at = prev_of(m, at);
    }
    false
}
