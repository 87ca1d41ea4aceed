// What an event may look at: the count, the word, the thread's own record, the one node that its access lies in, and
// the writer mark of the tail that a walk found.
//
// Reading never fails: where a machine has no such thread or node, the first is read, and `decide` refuses the event by
// its count, its thread or its node without asking what was read there.
ghost use Rattle.std.specs.Prelude.{◌≡◌, ◌<◌};
ghost use Rattle.word.specs.Number.{slot_of};
ghost use Rattle.state.specs.Machine.{thread_limit};
ghost use Rattle.lock.specs.Step.{marked_of};
ghost use Rattle.lock.specs.Look.{bounded_of, slot_index, thread_index, touched_index};
ghost use Rattle.lock.specs.Look.{tail_index, mark_in, look_from, look_of, view_in};

use state::{Access, Machine, Mark, Node, Place, THREADS, Thread, View};
use word::{NodeNumber, ThreadNumber, Word};

#[derive(Clone, Copy)]
pub struct Look {
    pub count: u8,
    pub word: Word,
    pub me: ThreadNumber,
    pub thread: Thread,
    pub node: Node,
    pub mark: Mark,
}

// Where a record or a node lies; a machine's arrays have it.
#[derive(Clone, Copy)]
pub(crate) struct Index {
    pub(crate) at: usize,
    ghost below_limit: { at < thread_limit },
}

impl Index {
    pub(crate) fn bounded(i: usize) -> Index
        ensures { result.at ≡ bounded_of i }
    {
        Index {
            at: if i < THREADS { i } else { 0 },
        }
    }
}

// Where a node lies; the first, where the machine has no such node.
fn node_index(n: NodeNumber, count: u8) -> Index
    ensures { result.at ≡ slot_index (slot_of n count) }
{
    Index::bounded(n.slot(count).unwrap_or(0))
}

// Where the thread's record lies.
pub(crate) fn thread_index(t: ThreadNumber) -> Index
    ensures { result.at ≡ thread_index t }
{
    Index::bounded(t.0 as usize)
}

// Where the node lies that the thread's access touches; at the word or the token, the thread's own.
#[tactic(auto, unfolding(crate::specs::Look::touched_index))]
pub(crate) fn touched_index(count: u8, me: ThreadNumber, t: Thread) -> Index
    ensures { result.at ≡ touched_index count me t }
{
    node_index(Access::of(me, t.place).touched(me), count)
}

// The node whose writer mark the local code of a step reads: the tail that a walk found.
#[tactic(auto, unfolding(crate::specs::Step::marked_of))]
fn marked(place: Place) -> NodeNumber
    ensures { result ≡ marked_of place }
{
    match place {
        Place::WalkHead { tail, .. } => tail,
        _ => NodeNumber::NONE,
    }
}

#[tactic(auto, unfolding(crate::specs::Look::tail_index))]
fn tail_index(count: u8, t: Thread) -> Index
    ensures { result.at ≡ tail_index count t }
{
    node_index(marked(t.place), count)
}

fn mark_in(slot: Option<usize>, writer: bool) -> Mark
    ensures { result ≡ mark_in slot writer }
{
    match slot {
        None => Mark::Missing,
        Some(_) if writer => Mark::Writer,
        Some(_) => Mark::Reader,
    }
}

impl Look {
    // What was read, put together: the thread's record, the node touched, and the node of the tail.
    #[tactic(auto, unfolding(crate::specs::Look::look_from))]
    fn from(count: u8, word: Word, me: ThreadNumber, thread: Thread, node: Node, tail: Node) -> Look
        ensures { result ≡ look_from count word me thread node tail }
    {
        Look {
            count,
            word,
            me,
            thread,
            node,
            mark: mark_in(marked(thread.place).slot(count), tail.writer),
        }
    }

    // What a step may see of it.
    pub(crate) fn view(self, fails: bool) -> View
        ensures { result ≡ view_in self fails }
    {
        View {
            me: self.me,
            word: self.word,
            node: self.node,
            mark: self.mark,
            token: self.thread.token,
            holding: self.thread.holding,
            fails,
        }
    }
}

#[tactic(auto, unfolding(crate::specs::Look::look_of))]
pub fn look_at(m: Machine, me: ThreadNumber) -> Look
    ensures { result ≡ look_of m me }
{
    let t = m.threads[thread_index(me).at];
    let node = m.nodes[touched_index(m.count, me, t).at];
    let tail = m.nodes[tail_index(m.count, t).at];
    Look::from(m.count, m.word, me, t, node, tail)
}
