// What was decided is stored: the word, the node looked at, the thread's record, then the token of the thread woken. A
// refused event leaves the machine as it was.
ghost use Rattle.std.specs.Prelude.{◌≡◌, ◌<◌};
ghost use Rattle.state.specs.Machine.{thread_limit};
ghost use Rattle.lock.specs.Landed.{applied_of};
ghost use Rattle.lock.specs.Store.{sets_token, token_index, tokened_if, landed_in};

use crate::look::{Index, Look, thread_index, touched_index};
use state::{Accepted, Change, Machine, Outcome, Stepped, THREADS, Thread};
use word::ThreadNumber;

fn sets_token(woken: Option<ThreadNumber>) -> bool
    ensures { result ≡ sets_token woken }
{
    woken.is_some_and(|t| (t.0 as usize) < THREADS)
}

// Where the record lies that is stored for the token; some record, where nobody is woken.
fn token_index(woken: Option<ThreadNumber>) -> Index
    ensures { result.at ≡ token_index woken }
{
    woken.map_or(Index::bounded(0), thread_index)
}

fn tokened(t: Thread, sets: bool) -> Thread
    ensures { result ≡ tokened_if t sets }
{
    Thread {
        token: sets || t.token,
        ..t
    }
}

// The thread's record first and then the token, so that a thread which wakes itself keeps both. For the token a record
// is always stored, as it is where nobody is woken: so storing has no branch.
fn applied(first: Machine, i: Index, k: Index, c: Change) -> Outcome
    ensures { result ≡ applied_of first i.at k.at c }
{
    let mut m = first;
    m.word = c.word;
    m.nodes[k.at] = c.node;
    m.threads[i.at] = c.thread;
    let j = token_index(c.woken).at;
    m.threads[j] = tokened(m.threads[j], sets_token(c.woken));
    Outcome {
        machine: m,
        reply: Ok(Accepted {
            answer: c.answer,
            woken: c.woken,
        }),
    }
}

#[tactic(auto, unfolding(crate::specs::Store::landed_in))]
pub(crate) fn land(m: Machine, look: Look, stepped: Stepped) -> Outcome
    ensures { result ≡ landed_in m look stepped }
{
    match stepped {
        Ok(c) => {
            let i = thread_index(look.me);
            let k = touched_index(look.count, look.me, look.thread);
            applied(m, i, k, c)
        }
        Err(r) => m.refused(r),
    }
}
