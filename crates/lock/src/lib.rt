// One event on the machine: look, decide, store.
//
//     event::event(machine, code, thread)
//       look::look_at     count, word, the thread's record, the node of its access, the mark of a tail
//       decide::decide    every event's refusals ... 8 (count), 1, 2
//                         a begin's ................ 3, 4; else nothing shared changes
//                         a step's ................. 5, 6, 7, 8; else View ──► the place's function ──► Change, or 8
//       landed::land      the machine with the Change stored; refused, as it was
//
// `decide` sees a Look and no machine. That an event is these three is `event_decides` (specs/EventDecides.antt); the
// waiter listing and the reader count stand in crate listing.
#![tactic(auto)]

pub mod advance;
pub mod begin;
pub mod code;
pub mod decide;
pub mod event;
pub mod landed;
pub mod look;
pub mod step;

pub use code::{Call, Code, code_of};
pub use look::Look;
