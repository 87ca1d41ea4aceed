// A step, or a step that fails for no cause: refused by the kind of its access and by the node that it lies in, else by
// the rule of its place.
ghost use Rattle.std.specs.Prelude.{◌≡◌};
ghost use Rattle.lock.specs.Step.{failing_of, parking_of, halted_of};
ghost use Rattle.lock.specs.Decide.{step_verdict, steps_in};

use crate::advance::advance;
use crate::look::Look;
use state::{Access, Kind, Refusal, Stepped, Thread};
use word::ThreadNumber;

// A step that fails for no cause is refused at any other access than a weak compare or park.
fn failing(fails: bool) -> Result<(), Refusal>
    ensures { result ≡ failing_of fails }
{
    if fails {
        Err(Refusal::CannotFail)
    } else {
        Ok(())
    }
}

// park returns for no cause, or with a token.
fn parking(token: bool, fails: bool) -> Result<(), Refusal>
    ensures { result ≡ parking_of token fails }
{
    if fails || token {
        Ok(())
    } else {
        Err(Refusal::NoToken)
    }
}

fn halted(kind: Kind, token: bool, fails: bool) -> Result<(), Refusal>
    ensures { result ≡ halted_of kind token fails }
{
    match kind {
        Kind::Nothing => Err(Refusal::NotInCall),
        Kind::Park => parking(token, fails),
        Kind::WeakCompare => Ok(()),
        Kind::Load
        | Kind::Store
        | Kind::StrongCompare
        | Kind::FetchOr
        | Kind::Subtract
        | Kind::Complete => failing(fails),
    }
}

// 5, 6 and 7 by the kind of the access, then 8 where it would touch a node outside 1..count.
#[tactic(auto, unfolding(crate::specs::Decide::step_verdict))]
fn step_verdict(count: u8, me: ThreadNumber, t: Thread, fails: bool) -> Result<(), Refusal>
    ensures { result ≡ step_verdict count me t fails }
{
    let access = Access::of(me, t.place);
    halted(access.kind, t.token, fails)?;
    if access.touched(me).slot(count).is_none() {
        return Err(Refusal::Damaged);
    }
    Ok(())
}

#[tactic(auto, unfolding(crate::specs::Decide::steps_in))]
pub(crate) fn steps(look: Look, fails: bool) -> Stepped
    ensures { result ≡ steps_in look fails }
{
    step_verdict(look.count, look.me, look.thread, fails)?;
    advance(look.view(fails), look.thread.place)
}
