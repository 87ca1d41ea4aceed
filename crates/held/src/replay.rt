// The replay of a bare run of events, with what it leaves unread of the caller's own slice.
ghost use Rattle.std.specs.Prelude.{◌≡◌};
ghost use Rattle.held.specs.Held.{shown_of, held_of};

use schedule::replay::{replay, rest};
use state::{Machine, Refusal};

// The machine after the events that ran, how many they are, what stopped them, and the rest from the refused event on.
#[derive(Clone, Copy)]
pub struct Held<'a, E> {
    pub machine: Machine,
    pub run: usize,
    pub stop: Result<(), E>,
    pub rest: &'a [u8],
}

pub fn replay_held(first: Machine, s: &[u8]) -> Held<'_, Refusal>
    ensures { shown_of result ≡ held_of first s.now }
{
    let done = replay(first, s);
    Held {
        machine: done.machine,
        run: done.run,
        stop: done.stop,
        rest: rest(s, done.run),
    }
}
