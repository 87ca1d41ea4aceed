// Event by event, by value: a cursor is the machine so far and how many events ran, so replay::rest(s, at) is unread.
ghost use Rattle.std.specs.Prelude.{◌≡◌};
ghost use Rattle.schedule.specs.Cursor.{start_of, moved_of};

use crate::file::WIDTH;
use lock::event::event;
use state::{Machine, Reply};
use word::ThreadNumber;

#[derive(Clone, Copy)]
pub struct Cursor {
    pub machine: Machine,
    pub at: usize,
}

// The event at a cursor, and what it was answered.
#[derive(Clone, Copy)]
pub struct Seen {
    pub code: u8,
    pub thread: ThreadNumber,
    pub reply: Reply,
}

// The next cursor, which stays where it was at the end and at a refused event; nothing is seen where no whole event is
// left.
#[derive(Clone, Copy)]
pub struct Moved {
    pub cursor: Cursor,
    pub seen: Option<Seen>,
}

impl Cursor {
    pub fn start(machine: Machine) -> Cursor
        ensures { result ≡ start_of machine }
    {
        Cursor { machine, at: 0 }
    }
}

#[tactic(auto, unfolding(crate::specs::Cursor::moved_of))]
pub fn next(c: Cursor, s: &[u8]) -> Moved
    ensures { result ≡ moved_of c s.now }
{
    let (events, _) = s.as_chunks::<WIDTH>();
    let Some(bytes) = events.get(c.at) else {
        return Moved {
            cursor: c,
            seen: None,
        };
    };
    let [code, thread] = *bytes;
    let thread = ThreadNumber(thread);
    let o = event(c.machine, code, thread);
    let reply = o.reply;
    let cursor = match reply {
        Ok(_) => Cursor {
            machine: o.machine,
            at: c.at + 1,
        },
        Err(_) => c,
    };
    Moved {
        cursor,
        seen: Some(Seen {
            code,
            thread,
            reply,
        }),
    }
}
