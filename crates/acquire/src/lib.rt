// Taking the lock: the first attempts, lock_contended, and the wait for the node to be completed.
#![tactic(auto)]

pub mod lock_contended;
pub mod try_read;
pub mod try_write;
pub mod wait;

pub use lock_contended::{contend_cas, contend_load, register_cas};
pub use try_read::{try_read_cas, try_read_load};
pub use try_write::try_write_or;
pub use wait::{completed_load, park};
