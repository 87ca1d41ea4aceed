// Unlocking the queue: what follows a walk in the step that ends it, and unlock_queue.
#![tactic(auto)]

pub mod after_walk;
pub mod unlock_queue;

pub use after_walk::walk_head;
pub use unlock_queue::{queue_cas, split_cas, split_prev, split_restore, split_store, take_cas};
