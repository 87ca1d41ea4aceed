// The machine: the word, the waiters' nodes, and how far each thread has come in its call.
//
// The queue runs from the newest waiter, which the word names, by next to the oldest. A walk adds prev on its way and
// stores the tail that it found in the node it started from (queue.rs, 'Waiter Queue'). With the word at 16 * 3 + 3,
// nodes 3, 2 and 1 waiting in that order:
//
//     word 51 ──► node 3 ──next──► node 2 ──next──► node 1, next is 16 * readers
//                   │  ◄──prev──      ◄──prev──       ▲
//                   └──────────────tail───────────────┘
//
// A thread is idle or at a place: one case for each access site of queue.rs, with the values that the code holds there.
// An event makes the access of its thread's place and runs the local code up to the next one. What it may look at is a
// View; what it did is a Change: the word, one node, the thread's own record, and one token by waking.
#![tactic(auto)]

pub mod access;
pub mod answer;
pub mod holding;
pub mod machine;
pub mod node;
pub mod place;
pub mod view;

pub use access::{Access, Kind, Location};
pub use answer::{Accepted, Answer, Refusal, Reply, Text};
pub use holding::Holding;
pub use machine::{Fresh, Machine, Outcome, THREADS, Thread, good_count};
pub use node::Node;
pub use place::{Place, Walk, Who};
pub use view::{Change, Mark, Next, Stepped, View};
