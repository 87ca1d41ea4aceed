// Walking the queue: find_tail_and_add_backlinks up to its last store, and complete_all.
#![tactic(auto)]

pub mod complete_all;
pub mod find_tail_and_add_backlinks;

pub use complete_all::{wake_prev, wake_store};
pub use find_tail_and_add_backlinks::{walk_next, walk_prev, walk_tail};
