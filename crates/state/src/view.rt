// What a step may look at, and what it did.
ghost use Rattle.std.specs.Prelude.{◌≡◌};
ghost use Rattle.state.specs.View.{agrees_of, at, end, granted, after_queue, walk_from, changed_of};
ghost use Rattle.state.specs.View.{stays, writes, links, subtracts, completes, parks};

use crate::answer::{Answer, Refusal};
use crate::holding::Holding;
use crate::machine::Thread;
use crate::node::Node;
use crate::place::{Place, Walk, Who};
use word::{ThreadNumber, Word};

// The writer mark of the tail that a walk found, where that tail is a node of the machine: `mark_by`'s three cases.
#[derive(Clone, Copy)]
pub enum Mark {
    Missing,
    Reader,
    Writer,
}

// The word, the one node that the access lies in (at the word, the thread's own), the thread's token and holding, and
// whether the step is to fail for no cause.
#[derive(Clone, Copy)]
pub struct View {
    pub me: ThreadNumber,
    pub word: Word,
    pub node: Node,
    pub mark: Mark,
    pub token: bool,
    pub holding: Holding,
    pub fails: bool,
}

// The word, that node and the thread's record after the step; its answer, and the thread it woke.
#[derive(Clone, Copy)]
pub struct Change {
    pub word: Word,
    pub node: Node,
    pub thread: Thread,
    pub answer: Answer,
    pub woken: Option<ThreadNumber>,
}

pub type Stepped = Result<Change, Refusal>;

// Where the thread stands after a step, and what is answered.
#[derive(Clone, Copy)]
pub struct Next {
    pub place: Place,
    pub answer: Answer,
}

impl Next {
    pub fn at(place: Place) -> Next
        ensures { result ≡ at place }
    {
        Next {
            place,
            answer: Answer::Went,
        }
    }

    // The call ends.
    pub fn end(answer: Answer) -> Next
        ensures { result ≡ end answer }
    {
        Next {
            place: Place::Idle,
            answer,
        }
    }

    // A first attempt is granted: read and write are done, a try ends with yes.
    pub fn granted(blocking: bool) -> Next
        ensures { result ≡ granted blocking }
    {
        Next::end(if blocking { Answer::Done } else { Answer::Yes })
    }

    // unlock_queue or complete_all returns: a waiter goes on to wait, another call ends.
    pub fn after_queue(who: Who) -> Next
        ensures { result ≡ after_queue who }
    {
        match who {
            Who::Waiter { writer } => Next::at(Place::CompletedLoad { writer }),
            Who::Leaver => Next::end(Answer::Done),
        }
    }

    // find_tail_and_add_backlinks is called on the node of a word.
    pub fn walk_from(walk: Walk, seen: Word) -> Next
        ensures { result ≡ walk_from walk seen }
    {
        Next::at(Place::WalkTail {
            walk,
            seen,
            current: seen.to_node(),
        })
    }
}

fn changed(
    word: Word,
    node: Node,
    token: bool,
    holding: Holding,
    woken: Option<ThreadNumber>,
    next: Next,
) -> Stepped
    ensures { result ≡ changed_of word node token holding woken next }
{
    Ok(Change {
        word,
        node,
        thread: Thread {
            place: next.place,
            token,
            holding,
        },
        answer: next.answer,
        woken,
    })
}

// What a step did, each by its definition, which the rules name.
impl View {
    // A weak compare's outcome: it succeeds unless it is made to fail or the word is another.
    pub fn agrees(self, seen: Word) -> bool
        ensures { result ≡ agrees_of self seen }
    {
        !self.fails && self.word == seen
    }

    // Nothing shared changes.
    pub fn stays(self, next: Next) -> Stepped
        ensures { result ≡ stays self next }
    {
        changed(self.word, self.node, self.token, self.holding, None, next)
    }

    // The word is written, and with it the thread's holding.
    pub fn writes(self, word: Word, holding: Holding, next: Next) -> Stepped
        ensures { result ≡ writes self word holding next }
    {
        changed(word, self.node, self.token, holding, None, next)
    }

    // The node is stored to, or the thread's own is filled.
    pub fn links(self, node: Node, next: Next) -> Stepped
        ensures { result ≡ links self node next }
    {
        changed(self.word, node, self.token, self.holding, None, next)
    }

    // A contended reader takes itself off the count in the node, and releases.
    pub fn subtracts(self, node: Node, holding: Holding, next: Next) -> Stepped
        ensures { result ≡ subtracts self node holding next }
    {
        changed(self.word, node, self.token, holding, None, next)
    }

    // The node is completed, and its owner woken.
    pub fn completes(self, node: Node, woken: Option<ThreadNumber>, next: Next) -> Stepped
        ensures { result ≡ completes self node woken next }
    {
        changed(self.word, node, self.token, self.holding, woken, next)
    }

    // park returns, with the token as it then is.
    pub fn parks(self, token: bool, next: Next) -> Stepped
        ensures { result ≡ parks self token next }
    {
        changed(self.word, self.node, token, self.holding, None, next)
    }
}
