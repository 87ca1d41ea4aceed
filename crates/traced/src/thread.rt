// The trace's line of a thread: where it is in its call, what it holds, its token, and where its node stands.
ghost use Rattle.std.specs.Prelude.{◌≡◌};
ghost use Rattle.print.specs.Line.{put_all, line_of};
ghost use Rattle.traced.specs.Thread.{holding_text, token_text, rouser_text, rousers_text, standing_text};
ghost use Rattle.traced.specs.Thread.{record_text, thread_text};

use crate::place::name_of;
use print::Line;
use standing::Standing;
use standing::look::record_of;
use standing::rouses::rouses;
use standing::stands::stands;
use state::{Holding, Machine, Thread};
use word::ThreadNumber;

fn held(holding: Holding) -> &'static str
    ensures { result.now ≡ holding_text holding }
{
    match holding {
        Holding::Nothing => ", holds nothing",
        Holding::Read => ", holds read",
        Holding::Write => ", holds write",
    }
}

fn token_word(token: bool) -> &'static str
    ensures { result.now ≡ token_text token }
{
    if token { ", token" } else { ", no token" }
}

fn put_rouser(line: Line, m: Machine, k: u8) -> Line
    ensures { result ≡ put_all line (rouser_text m k) }
{
    if rouses(m, ThreadNumber(k)) {
        line.text(b" ").decimal(k as u64)
    } else {
        line
    }
}

// Whose steps have to come before it is woken.
fn put_rousers(mut line: Line, m: Machine) -> Line
    ensures { result ≡ put_all line (rousers_text m.count m) }
{
    for k in 0..m.count {
        line = put_rouser(line, m, k);
    }
    line
}

fn put_standing(line: Line, m: Machine, standing: Standing) -> Line
    ensures { result ≡ put_all line (standing_text m standing) }
{
    match standing {
        Standing::NotWaiting => line,
        Standing::Nowhere => line.text(b", in no list"),
        Standing::Completed => line.text(b", completed"),
        Standing::InQueue => put_rousers(line.text(b", in the queue, waits for"), m),
        Standing::SetAside { by } => line.text(b", set aside by ").decimal(by.0 as u64),
        Standing::InList { by } => line.text(b", in the list of ").decimal(by.0 as u64),
    }
}

fn record_line(t: ThreadNumber, its: Thread) -> Line
    ensures { result ≡ line_of (record_text t its) }
{
    Line::blank()
        .text(b"thread ")
        .decimal(t.0 as u64)
        .text(b" ")
        .text(name_of(its.place).as_bytes())
        .text(held(its.holding).as_bytes())
        .text(token_word(its.token).as_bytes())
}

pub fn thread_line(m: Machine, t: ThreadNumber) -> Line
    ensures { result ≡ line_of (thread_text m t) }
{
    put_standing(record_line(t, record_of(m, t)), m, stands(m, t))
}
