// A program's input, the bytes of a named file or of standard input, and its output, written a page at a time.
#![tactic(auto)]

pub mod input;
pub mod output;
mod pages;
pub mod runs;

pub use input::{Reading, Received};
