// Beginning a call: refused inside a call or on the wrong holding, else nothing shared changes and the thread stands at
// the call's first access.
ghost use Rattle.std.specs.Prelude.{◌≡◌};
ghost use Rattle.lock.specs.Begin.{first_place, holds_nothing, may_begin, is_idle};
ghost use Rattle.lock.specs.Decide.{begin_verdict, begins_in};

use crate::code::Call;
use crate::look::Look;
use state::{Answer, Holding, Next, Place, Refusal, Stepped, Thread};

fn first_place(call: Call) -> Place
    ensures { result ≡ first_place call }
{
    match call {
        Call::Read => Place::TryReadLoad { blocking: true },
        Call::Write => Place::TryWriteOr { blocking: true },
        Call::TryRead => Place::TryReadLoad { blocking: false },
        Call::TryWrite => Place::TryWriteOr { blocking: false },
        Call::ReadUnlock => Place::ReadUnlockLoad,
        Call::WriteUnlock => Place::WriteUnlockCas,
        Call::Downgrade => Place::DowngradeCas,
    }
}

fn holds_nothing(holding: Holding) -> bool
    ensures { result ≡ holds_nothing holding }
{
    holding.reads() == 0 && holding.writes() == 0
}

// The four attempts want nothing held, read_unlock a read, write_unlock and downgrade the write.
fn may_begin(call: Call, holding: Holding) -> bool
    ensures { result ≡ may_begin call holding }
{
    match call {
        Call::Read | Call::Write | Call::TryRead | Call::TryWrite => holds_nothing(holding),
        Call::ReadUnlock => 0 < holding.reads(),
        Call::WriteUnlock | Call::Downgrade => 0 < holding.writes(),
    }
}

#[tactic(auto, unfolding(state::specs::Access::access_of))]
fn is_idle(place: Place) -> bool
    ensures { result ≡ is_idle place }
{
    matches!(place, Place::Idle)
}

// 3 inside a call, then 4.
#[tactic(auto, unfolding(crate::specs::Decide::begin_verdict))]
fn begin_verdict(t: Thread, call: Call) -> Result<(), Refusal>
    ensures { result ≡ begin_verdict t call }
{
    if !is_idle(t.place) {
        return Err(Refusal::InsideCall);
    }
    if !may_begin(call, t.holding) {
        return Err(Refusal::WrongHolding);
    }
    Ok(())
}

#[tactic(auto, unfolding(crate::specs::Decide::begins_in))]
pub(crate) fn begins(look: Look, call: Call) -> Stepped
    ensures { result ≡ begins_in look call }
{
    begin_verdict(look.thread, call)?;
    look.view(false).stays(Next {
        place: first_place(call),
        answer: Answer::Begun,
    })
}
