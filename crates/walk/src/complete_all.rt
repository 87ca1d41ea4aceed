// From the tail back by prev, completing each node. prev is read before the node is completed: its owner may refill it.
ghost use Rattle.std.specs.Prelude.{◌≡◌};
ghost use Rattle.walk.specs.CompleteAll.{wake_prev_of, wake_store_of};

use state::{Next, Place, Stepped, View, Who};
use word::NodeNumber;

// Load current's prev.
pub fn wake_prev(v: View, who: Who, current: NodeNumber) -> Stepped
    ensures { result ≡ wake_prev_of v who current }
{
    v.stays(Next::at(Place::WakeStore {
        who,
        current,
        prev: v.node.prev,
    }))
}

// Complete current: its completed is stored and its owner unparked, as one step.
pub fn wake_store(v: View, who: Who, current: NodeNumber, prev: NodeNumber) -> Stepped
    ensures { result ≡ wake_store_of v who current prev }
{
    let node = v.node.with_completed();
    let woken = current.owner();
    let next = if prev.is_none() {
        Next::after_queue(who)
    } else {
        Next::at(Place::WakePrev { who, current: prev })
    };
    v.completes(node, woken, next)
}
