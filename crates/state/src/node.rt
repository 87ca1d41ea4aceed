// A waiter's node. The thread handle of queue.rs is the node's owner, by number.
ghost use Rattle.std.specs.Prelude.{◌≡◌};
ghost use Rattle.state.specs.Node.{blank_node, filled_of, with_next, with_prev, with_tail, with_completed};

use word::{NodeNumber, ThreadNumber, Word};

#[derive(Clone, Copy)]
pub struct Node {
    // A word without flags: a link to the next older node; in the oldest, 16 times the readers.
    pub next: Word,
    pub prev: NodeNumber,
    pub tail: NodeNumber,
    pub writer: bool,
    pub completed: bool,
}

impl Node {
    // Not derived: no clause says a derived Default's value.
    pub fn blank() -> Node
        ensures { result ≡ blank_node }
    {
        Node {
            next: Word(0),
            prev: NodeNumber::NONE,
            tail: NodeNumber::NONE,
            writer: false,
            completed: false,
        }
    }

    // The node of thread `me` as it goes to register on the word `seen`.
    pub fn filled(me: ThreadNumber, writer: bool, seen: Word) -> Node
        ensures { result ≡ filled_of me writer seen }
    {
        Node {
            next: seen.without_flags(),
            tail: if seen.queued() {
                NodeNumber::NONE
            } else {
                me.node()
            },
            writer,
            ..Node::blank()
        }
    }

    // A field for each, by the definition that the rules name.
    pub fn with_next(self, next: Word) -> Node
        ensures { result ≡ with_next self next }
    {
        Node { next, ..self }
    }

    pub fn with_prev(self, prev: NodeNumber) -> Node
        ensures { result ≡ with_prev self prev }
    {
        Node { prev, ..self }
    }

    pub fn with_tail(self, tail: NodeNumber) -> Node
        ensures { result ≡ with_tail self tail }
    {
        Node { tail, ..self }
    }

    pub fn with_completed(self) -> Node
        ensures { result ≡ with_completed self }
    {
        Node {
            completed: true,
            ..self
        }
    }
}
