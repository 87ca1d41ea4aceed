// What a replay hands back together: machine, answer, and the unread rest as a part of the caller's own slice.
//
//     replay::replay_held(machine, s)     schedule's `replay` and `rest`
//     whole::replay_file_held(s)          schedule's `replay_file` and `rest_of_file`
#![tactic(auto)]

pub mod replay;
pub mod whole;

pub use replay::Held;
pub use whole::FileHeld;
