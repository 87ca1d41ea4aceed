// Whose steps have to come before a queued waiter is woken.
ghost use Rattle.std.specs.Prelude.{◌≡◌};
ghost use Rattle.standing.specs.Rouses.{holds_of, leaves_of, owns_of, hands_off, sees, rouses_by, rouses_of};

use crate::look::{completed_of, record_of};
use crate::part::{Part, part_at};
use state::{Holding, Machine};
use word::{ThreadNumber, Word};

fn holds(holding: Holding) -> bool
    ensures { result ≡ holds_of holding }
{
    0 < holding.reads() || 0 < holding.writes()
}

fn leaves(part: Part, holds: bool) -> bool
    ensures { result ≡ leaves_of part holds }
{
    matches!(part, Part::Releasing) || holds
}

fn owns(part: Part) -> bool
    ensures { result ≡ owns_of part }
{
    matches!(part, Part::Owning { .. } | Part::SettingAside { .. })
}

// Will it look at the lock again, or wake one that will?
fn sees(part: Part, completed: bool) -> bool
    ensures { result ≡ sees part completed }
{
    match part {
        Part::Contending | Part::Walking { .. } | Part::Reading { .. } | Part::Completing { .. } =>
            true,
        Part::Waiting => completed,
        _ => false,
    }
}

// Held, and no downgrade is asked for: an owner of the queue lock leaves the queue as it is.
fn hands_off(word: Word) -> bool
    ensures { result ≡ hands_off word }
{
    word.locked() && !word.downgraded()
}

// With hands off: those that hold or leave. Else with the queue locked: its owner. Else those that will look at the
// lock again or wake one that will.
fn rouses_by(m: Machine, t: ThreadNumber, part: Part) -> bool
    ensures { result ≡ rouses_by m t part }
{
    if hands_off(m.word) {
        leaves(part, holds(record_of(m, t).holding))
    } else if m.word.queue_locked() {
        owns(part)
    } else {
        sees(part, completed_of(m, t))
    }
}

pub fn rouses(m: Machine, t: ThreadNumber) -> bool
    ensures { result ≡ rouses_of m t }
{
    rouses_by(m, t, part_at(record_of(m, t).place))
}
