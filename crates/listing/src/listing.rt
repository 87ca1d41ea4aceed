// The waiter listing: from the newest waiter by next to the first node whose tail is set, and on to that tail.
ghost use Rattle.std.specs.Prelude.{[], ◌≡◌, ◌≤◌, IfOk, IfErr};
ghost use Rattle.state.specs.Machine.{thread_limit};
ghost use Rattle.state.specs.declared.answer.Refusal.TheVariants.{Damaged};
ghost use Rattle.listing.specs.Listing.{node_in, from_head_of, array_of, waiters_by, waiters_of};
ghost use Rattle.listing.specs.Way.{IsPadded, Stood, CannotStand};

use state::{Machine, Node, Refusal, THREADS, good_count};
use word::NodeNumber;

// The waiters, newest first: nodes[..length], and the others none.
#[derive(Clone, Copy)]
pub struct Waiters {
    pub nodes: [NodeNumber; THREADS],
    pub length: usize,
}

fn none_waiting() -> Waiters
    ensures { result ≡ array_of [] }
{
    Waiters {
        nodes: [NodeNumber::NONE; THREADS],
        length: 0,
    }
}

// The node of a number, if it is one of the machine's.
pub(crate) fn node_at(m: Machine, n: NodeNumber) -> Option<Node>
    ensures { m.count ≤ thread_limit → result ≡ node_in m n }
{
    let k = n.slot(m.count)?;
    m.nodes.get(k).copied()
}

// Stands on a node, and lists it: refused out of range, and where there are as many visits as the count already.
fn stand(m: Machine, at: NodeNumber, waiters: &mut Waiters) -> Result<Node, Refusal>
    requires few { m.count ≤ thread_limit }
    requires padded { IsPadded waiters.old }
    ensures ok { IfOk result (λ n. Stood m at waiters.old waiters.new n) }
    ensures err { IfErr result (λ r. (r ≡ Damaged) × CannotStand m at waiters.old) }
{
    let node = node_at(m, at).ok_or(Refusal::Damaged)?;
    if m.count as usize <= waiters.length {
        return Err(Refusal::Damaged);
    }
    waiters.nodes[waiters.length] = at;
    waiters.length += 1;
    Ok(node)
}

// The waiters, newest first: none if unqueued; refused on a bad thread count, which is tested first, on a node out of
// range, and on more visits than the count.
pub fn listing(m: Machine) -> Result<Waiters, Refusal>
    ensures { result ≡ waiters_of m }
{
    if good_count(m.count) && !m.word.queued() {
        return Ok(none_waiting());
    }
    from_head(m, m.word.to_node())
}

// The same from any node, as a queue that was taken off the word is read.
pub fn from_head(m: Machine, head: NodeNumber) -> Result<Waiters, Refusal>
    ensures { result ≡ waiters_by (from_head_of m head) }
{
    if !good_count(m.count) {
        return Err(Refusal::Damaged);
    }
    let mut waiters = none_waiting();
    let mut at = head;
    let mut node = stand(m, at, &mut waiters)?;
    // document 01's form: a loop whose break yields the tail that was found, or the refusal
    let tail = loop {
        if !node.tail.is_none() {
            break node.tail;
        }
        at = node.next.to_node();
        node = stand(m, at, &mut waiters)?;
    };
    while at != tail {
        at = node.next.to_node();
        node = stand(m, at, &mut waiters)?;
    }
    Ok(waiters)
}
