// The machine: 1 to THREADS threads, a node for each, and the word.
ghost use Rattle.std.specs.Prelude.{◌≡◌, ◌≤◌};
ghost use Rattle.state.specs.Machine.{good_count, blank_thread, made_of, fresh_of, refused_of};

use crate::answer::{Refusal, Reply};
use crate::holding::Holding;
use crate::node::Node;
use crate::place::Place;
use word::Word;

// The thread limit: the one place that says it, and specs/Machine.antt's thread_limit.
pub const THREADS: usize = 8;

#[derive(Clone, Copy)]
pub struct Thread {
    pub place: Place,
    pub token: bool,
    pub holding: Holding,
}

// Arrays by number: the word links to nodes by number, and the definitions speak of the two arrays.
#[derive(Clone, Copy)]
pub struct Machine {
    pub count: u8,
    pub word: Word,
    pub nodes: [Node; THREADS],
    pub threads: [Thread; THREADS],
}

// A machine asked for, and whether its count was one of a machine. No Result: `fresh`'s clause and `fresh_of` hand a
// machine of one thread beside the refusal.
#[derive(Clone, Copy)]
pub struct Fresh {
    pub machine: Machine,
    pub verdict: Result<(), Refusal>,
}

// The machine after an event, and the reply.
#[derive(Clone, Copy)]
pub struct Outcome {
    pub machine: Machine,
    pub reply: Reply,
}

impl Thread {
    // Not derived: no clause says a derived Default's value.
    pub fn blank() -> Thread
        ensures { result ≡ blank_thread }
    {
        Thread {
            place: Place::Idle,
            token: false,
            holding: Holding::Nothing,
        }
    }
}

// Is the count one of a machine?
pub fn good_count(count: u8) -> bool
    ensures { result ≡ good_count count }
{
    1 <= count && count as usize <= THREADS
}

fn made(count: u8) -> Machine
    ensures { result ≡ made_of count }
{
    Machine {
        count,
        word: Word::FREE,
        nodes: [Node::blank(); THREADS],
        threads: [Thread::blank(); THREADS],
    }
}

impl Machine {
    // Word 0, all threads idle, no tokens, nothing held; a bad count is refused beside a machine of one thread.
    pub fn fresh(count: u8) -> Fresh
        ensures { result ≡ fresh_of count }
    {
        if good_count(count) {
            Fresh {
                machine: made(count),
                verdict: Ok(()),
            }
        } else {
            Fresh {
                machine: made(1),
                verdict: Err(Refusal::Damaged),
            }
        }
    }

    // The machine as it was, and the refusal.
    pub fn refused(self, refusal: Refusal) -> Outcome
        ensures { result ≡ refused_of self refusal }
    {
        Outcome {
            machine: self,
            reply: Err(refusal),
        }
    }
}
