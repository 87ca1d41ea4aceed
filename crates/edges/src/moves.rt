// A replay as data: calls that begin and steps that are made, and what is told of it at its end.
use listing::Waiters;
use listing::listing::listing;
use listing::reader_count::reader_count;
use lock::event::event;
use state::{Machine, Refusal, Reply, THREADS};
use word::{NodeNumber, ThreadNumber};

// The codes once more, apart from lock's `call_of`, which is tried with them.
#[derive(Clone, Copy)]
pub(crate) enum Call {
    Read = 0,
    Write = 1,
    ReadUnlock = 4,
    WriteUnlock = 5,
}

// lock's code of a step.
const STEP: u8 = 16;

#[derive(Clone, Copy)]
pub(crate) enum Move {
    // a call, by a thread
    Begin(Call, u8),
    // a thread's next accesses, and how many
    Steps(u8, u8),
}

// Of the last move: how many of its events were accepted, the refusal of its last event, the thread that it woke last.
#[derive(Clone, Copy, Default)]
struct Last {
    accepted: u64,
    refused: Option<Refusal>,
    woken: Option<ThreadNumber>,
}

// The machine after all moves, of which facts are told by their numbers, 0 where there is none.
#[derive(Clone, Copy)]
pub(crate) struct Facts {
    machine: Machine,
    last: Last,
}

impl Last {
    fn note(&mut self, reply: Reply) {
        match reply {
            Ok(accepted) => {
                self.accepted = self.accepted.saturating_add(1);
                self.refused = None;
                self.woken = accepted.woken.or(self.woken);
            }
            Err(refusal) => self.refused = Some(refusal),
        }
    }
}

impl Facts {
    fn fresh(count: u8) -> Facts {
        Facts {
            machine: Machine::fresh(count).machine,
            last: Last::default(),
        }
    }

    fn event(&mut self, code: u8, thread: u8) {
        let outcome = event(self.machine, code, ThreadNumber(thread));
        self.machine = outcome.machine;
        self.last.note(outcome.reply);
    }

    // A refused event changes nothing.
    fn make(&mut self, m: Move) {
        self.last = Last::default();
        match m {
            Move::Begin(call, thread) => self.event(call as u8, thread),
            Move::Steps(thread, times) => {
                for _ in 0..times {
                    self.event(STEP, thread);
                }
            }
        }
    }

    pub(crate) fn word(&self) -> u64 {
        self.machine.word.0
    }

    pub(crate) fn accepted(&self) -> u64 {
        self.last.accepted
    }

    pub(crate) fn refused(&self) -> u64 {
        self.last.refused.map_or(0, |r| u64::from(r.number()))
    }

    // The node of the thread that was woken.
    pub(crate) fn woken(&self) -> u64 {
        self.last.woken.map_or(0, |t| t.node().0)
    }

    // Refused, there are none.
    fn listed(&self) -> Option<Waiters> {
        listing(self.machine).ok()
    }

    pub(crate) fn waiters(&self) -> u64 {
        self.listed().map_or(0, |w| w.length as u64)
    }

    // Where nobody waits the array's first is none.
    pub(crate) fn newest(&self) -> u64 {
        self.listed().map_or(0, |w| w.nodes[0].0)
    }

    fn oldest_node(&self) -> NodeNumber {
        self.listed()
            .and_then(|w| w.nodes[..w.length.min(THREADS)].last().copied())
            .unwrap_or(NodeNumber::NONE)
    }

    pub(crate) fn oldest(&self) -> u64 {
        self.oldest_node().0
    }

    // The oldest waiter's next.
    pub(crate) fn next(&self) -> u64 {
        let slot = self.oldest_node().slot(self.machine.count);
        slot.and_then(|k| self.machine.nodes.get(k))
            .map_or(0, |node| node.next.0)
    }

    pub(crate) fn readers(&self) -> u64 {
        reader_count(self.machine).map_or(0, |found| found.readers)
    }
}

// What is told after these moves, part after part, from a fresh machine.
pub(crate) fn told(count: u8, parts: &[&[Move]]) -> Facts {
    let mut facts = Facts::fresh(count);
    for part in parts {
        for m in *part {
            facts.make(*m);
        }
    }
    facts
}
