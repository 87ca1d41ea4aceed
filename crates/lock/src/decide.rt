// What an event comes to, by what it looks at: a Change, or a refusal in document 01's order. Here stand the refusals
// of every event; begin.rt has those of a begin, step.rt those of a step.
ghost use Rattle.std.specs.Prelude.{◌≡◌};
ghost use Rattle.lock.specs.Decide.{event_verdict, decide_of};

use crate::begin::begins;
use crate::code::{Code, code_of};
use crate::look::Look;
use crate::step::steps;
use state::{Refusal, Stepped, good_count};
use word::ThreadNumber;

// 8 for the count, 1, 2; else what the code asks for.
#[tactic(auto, unfolding(crate::specs::Decide::event_verdict))]
fn event_verdict(count: u8, me: ThreadNumber, code: u8) -> Result<Code, Refusal>
    ensures { result ≡ event_verdict count me code }
{
    if !good_count(count) {
        return Err(Refusal::Damaged);
    }
    let known = code_of(code).ok_or(Refusal::UnknownCode)?;
    if count <= me.0 {
        return Err(Refusal::NoThread);
    }
    Ok(known)
}

#[tactic(auto, unfolding(crate::specs::Decide::decide_of))]
pub fn decide(look: Look, code: u8) -> Stepped
    ensures { result ≡ decide_of look code }
{
    match event_verdict(look.count, look.me, code)? {
        Code::Begin(call) => begins(look, call),
        Code::Step => steps(look, false),
        Code::Fail => steps(look, true),
    }
}
