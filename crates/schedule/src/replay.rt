// The replay of a bare run of events, code and thread each, on any machine.
ghost use Rattle.std.specs.Prelude.{◌≡◌, ◌*◌, drop};
ghost use Rattle.schedule.specs.File.{event_width};
ghost use Rattle.schedule.specs.Replay.{replay_of};

use crate::file::WIDTH;
use crate::part::from;
use lock::event::event;
use state::{Machine, Refusal};
use word::ThreadNumber;

// The machine after the events that ran, how many they are, and what stopped them: nothing, where all ran.
#[derive(Clone, Copy)]
pub struct Replayed<E> {
    pub machine: Machine,
    pub run: usize,
    pub stop: Result<(), E>,
}

// Runs events from the start of s until one is refused or fewer than two bytes are left; an odd byte is not an event.
pub fn replay(first: Machine, s: &[u8]) -> Replayed<Refusal>
    ensures { result ≡ replay_of first s.now }
{
    let mut machine = first;
    let (events, _) = s.as_chunks::<WIDTH>();
    for (run, [code, thread]) in events.iter().enumerate() {
        let o = event(machine, *code, ThreadNumber(*thread));
        if let Err(refusal) = o.reply {
            return Replayed {
                machine,
                run,
                stop: Err(refusal),
            };
        }
        machine = o.machine;
    }
    Replayed {
        machine,
        run: events.len(),
        stop: Ok(()),
    }
}

// What is left of the caller's slice after so many events, the refused one included; past the end, the empty end.
pub fn rest(s: &[u8], run: usize) -> &[u8]
    ensures { result.now ≡ drop (event_width * run) s.now }
{
    from(s, WIDTH.saturating_mul(run))
}

// The rest that the replay leaves.
pub fn unread(first: Machine, s: &[u8]) -> &[u8]
    ensures { result.now ≡ drop (event_width * (replay_of first s.now).run) s.now }
{
    rest(s, replay(first, s).run)
}
