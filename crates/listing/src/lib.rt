// What a machine's queue says, read off it and changing nothing: who waits, and where the readers are counted.
#![tactic(auto)]

pub mod listing;
pub mod reader_count;

pub use listing::Waiters;
pub use reader_count::{Readers, Sits};
