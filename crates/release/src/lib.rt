// Giving the lock up, or up to read: read_unlock, write_unlock, unlock_contended and downgrade.
#![tactic(auto)]

pub mod downgrade;
pub mod read_unlock;
pub mod unlock_contended;
pub mod write_unlock;

pub use downgrade::{downgrade_cas, downgrade_slow_cas};
pub use read_unlock::{read_unlock_cas, read_unlock_load, subtract};
pub use unlock_contended::release_cas;
pub use write_unlock::write_unlock_cas;
