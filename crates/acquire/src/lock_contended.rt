// lock_contended: load and judge the word; take the lock, reload, or fill the node and register it. What a place
// carries is passed on as it stands in `Place` and in the definitions.
ghost use Rattle.std.specs.Prelude.{◌≡◌};
ghost use Rattle.word.specs.Base.{pick};
ghost use Rattle.acquire.specs.TryRead.{try_read_refused};
ghost use Rattle.acquire.specs.TryWrite.{try_write_refused};
ghost use Rattle.acquire.specs.LockContended.{permitted_of, granted_of, fill_of, reload_or_fill, contend_judged};
ghost use Rattle.acquire.specs.LockContended.{contend_load_of, contend_cas_of, after_register, register_cas_of};

use state::{Answer, Holding, Next, Node, Place, Stepped, View, Walk, Who};
use word::Word;

// queue.rs reloads the word so many times before it queues.
pub const SPIN_COUNT: u8 = 7;

// A first attempt is refused: read and write contend, a try ends with no.
pub(crate) fn contend_or_no(writer: bool, blocking: bool) -> Next
    ensures { result ≡ pick writer (try_write_refused blocking) (try_read_refused blocking) }
{
    if blocking {
        Next::at(Place::ContendLoad { writer, reloads: 0 })
    } else {
        Next::end(Answer::No)
    }
}

// The lock rule of the call, read_lock or write_lock: the word to compare to, where it permits.
fn lock_rule(writer: bool, seen: Word) -> Option<Word>
    ensures { result ≡ permitted_of writer seen }
{
    if writer {
        seen.write_lock()
    } else {
        seen.read_lock()
    }
}

fn granted(writer: bool, holding: Holding) -> Holding
    ensures { result ≡ granted_of writer holding }
{
    if writer {
        holding.granted_write()
    } else {
        holding.granted_read()
    }
}

// The optimistic paths are spent: fill the node, and register it next.
fn fill(v: View, writer: bool, reloads: u8, seen: Word) -> Stepped
    ensures { result ≡ fill_of v writer reloads seen }
{
    v.links(
        Node::filled(v.me, writer, seen),
        Next::at(Place::RegisterCas {
            writer,
            reloads,
            seen,
        }),
    )
}

// The lock rule refuses: reload while the word is unqueued and reloads are left, else queue.
fn reload_or_fill(v: View, writer: bool, reloads: u8, seen: Word) -> Stepped
    ensures { result ≡ reload_or_fill v writer reloads seen }
{
    if !seen.queued() && reloads < SPIN_COUNT {
        v.stays(Next::at(Place::ContendLoad {
            writer,
            reloads: reloads + 1,
        }))
    } else {
        fill(v, writer, reloads, seen)
    }
}

fn contend_judged(v: View, writer: bool, reloads: u8, seen: Word) -> Stepped
    ensures { result ≡ contend_judged v writer reloads seen }
{
    match lock_rule(writer, seen) {
        Some(_) => v.stays(Next::at(Place::ContendCas {
            writer,
            reloads,
            seen,
        })),
        None => reload_or_fill(v, writer, reloads, seen),
    }
}

pub fn contend_load(v: View, writer: bool, reloads: u8) -> Stepped
    ensures { result ≡ contend_load_of v writer reloads }
{
    contend_judged(v, writer, reloads, v.word)
}

pub fn contend_cas(v: View, writer: bool, reloads: u8, seen: Word) -> Stepped
    ensures { result ≡ contend_cas_of v writer reloads seen }
{
    if v.agrees(seen)
        && let Some(to) = lock_rule(writer, seen)
    {
        v.writes(to, granted(writer, v.holding), Next::end(Answer::Done))
    } else {
        contend_judged(v, writer, reloads, v.word)
    }
}

// The node is registered: whoever turned QUEUE_LOCKED on unlocks the queue, the others wait.
fn after_register(writer: bool, seen: Word, to: Word) -> Next
    ensures { result ≡ after_register writer seen to }
{
    if seen.queued() && !seen.queue_locked() {
        let who = Who::Waiter { writer };
        Next::walk_from(Walk::Queue { who }, to)
    } else {
        Next::at(Place::CompletedLoad { writer })
    }
}

pub fn register_cas(v: View, writer: bool, reloads: u8, seen: Word) -> Stepped
    ensures { result ≡ register_cas_of v writer reloads seen }
{
    if v.agrees(seen) {
        let to = seen.registered(v.me);
        v.writes(to, v.holding, after_register(writer, seen, to))
    } else {
        contend_judged(v, writer, reloads, v.word)
    }
}
