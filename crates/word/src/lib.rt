// The lock's word, and the numbers that must not be taken for one another.
//
// The word is 64 bits: LOCKED 1, QUEUED 2, QUEUE_LOCKED 4, DOWNGRADED 8, and 16 times a number. The number counts the
// readers where QUEUED is clear; else it is the newest waiter's node number.
//
//     0                        free
//     1                        held by one writer
//     16 * r + 1               held by r readers
//     16 * n + QUEUED + ..     node n is the newest waiter; the oldest waiter's next has the reader count
//
// Thread t, from 0, owns node t + 1: thread number, node number and word are three types.
#![tactic(auto)]

pub mod flags;
pub mod number;
pub mod rules;

pub use flags::Word;
pub use number::{NodeNumber, ThreadNumber};
pub use rules::{ONE_READER, ONE_WRITER, ReadUnlocked};
