// The trace's lines (docs/TRACE.md).
//
//     event::traced_line(..)     document 01's line with the waiters newest first and the reader count where it sits
//     thread::thread_line(m, t)  where a thread is in its call, what it holds, and where its node stands
#![tactic(auto, using(crate::specs::Laws::texts))]

pub mod event;
mod place;
pub mod thread;
