// Where a waiter stands, in the queue, set aside or in a waker's list,
// and whose turn it is before a queued one is woken.
//
//     look::record_of(m, t)   thread t's record
//     part::part_at(place)    what a thread at a place has to do with the queue
//     stands::stands(m, t)    where thread t's node stands
//     rouses::rouses(m, t)    is thread t one whose steps have to come before the queue's waiters are woken?
#![tactic(auto)]

pub mod look;
pub mod part;
pub mod rouses;
pub mod stands;

pub use part::Part;
pub use stands::Standing;
