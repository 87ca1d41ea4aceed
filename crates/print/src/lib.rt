// What the programs print, as bytes: lines, pages of them, and document 01's.
//
//     line::Line                 a line of text by value; what does not fit is left out
//     page::lay(page, at, line)  lines laid one after the other in the bytes that a caller lends
//     replayed::step_line(..)    document 01's line for an event, `end N` or `refused N`
#![tactic(auto, using(crate::specs::Laws::lines))]

pub mod line;
pub mod page;
pub mod replayed;

pub use line::Line;
