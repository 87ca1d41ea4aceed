// What a thread at a place has to do with the queue: one table over the places.
ghost use Rattle.std.specs.Prelude.{◌≡◌};
ghost use Rattle.standing.specs.Part.{walking_of, part_of, waiter_of, registered_of};

use state::{Place, Walk, Who};
use word::{NodeNumber, Word};

#[derive(Clone, Copy)]
pub enum Part {
    Apart,
    // It will look at the lock again before it waits.
    Contending,
    // Its node is registered; it loads completed or parks.
    Waiting,
    // It holds the queue lock.
    Owning {
        who: Who,
    },
    // It holds the queue lock, and has set the tail aside.
    SettingAside {
        who: Who,
        tail: NodeNumber,
    },
    // A downgrade that took the queue from this head on, and walks it.
    Walking {
        head: NodeNumber,
    },
    // It completes a list: it stands on current, and has not read its prev, or has.
    Reading {
        who: Who,
        current: NodeNumber,
    },
    Completing {
        who: Who,
        current: NodeNumber,
        prev: NodeNumber,
    },
    // It releases what it held.
    Releasing,
}

fn walking(walk: Walk, seen: Word) -> Part
    ensures { result ≡ walking_of walk seen }
{
    match walk {
        Walk::Queue { who } => Part::Owning { who },
        Walk::ReadUnlock => Part::Apart,
        Walk::Downgrade => Part::Walking {
            head: seen.to_node(),
        },
    }
}

pub fn part_at(place: Place) -> Part
    ensures { result ≡ part_of place }
{
    match place {
        Place::ContendLoad { .. } | Place::ContendCas { .. } | Place::RegisterCas { .. } =>
            Part::Contending,
        Place::CompletedLoad { .. } | Place::Park { .. } => Part::Waiting,
        Place::WalkTail { walk, seen, .. }
        | Place::WalkNext { walk, seen, .. }
        | Place::WalkPrev { walk, seen, .. }
        | Place::WalkHead { walk, seen, .. } => walking(walk, seen),
        Place::QueueCas { who, .. }
        | Place::SplitPrev { who, .. }
        | Place::SplitStore { who, .. }
        | Place::TakeCas { who, .. } => Part::Owning { who },
        Place::SplitCas { who, tail, .. } | Place::SplitRestore { who, tail, .. } =>
            Part::SettingAside { who, tail },
        Place::WakePrev { who, current } => Part::Reading { who, current },
        Place::WakeStore { who, current, prev } => Part::Completing { who, current, prev },
        Place::ReleaseCas { .. } => Part::Releasing,
        Place::Idle
        | Place::TryReadLoad { .. }
        | Place::TryReadCas { .. }
        | Place::TryWriteOr { .. }
        | Place::ReadUnlockLoad
        | Place::ReadUnlockCas { .. }
        | Place::Subtract { .. }
        | Place::WriteUnlockCas
        | Place::DowngradeCas
        | Place::DowngradeSlowCas { .. } => Part::Apart,
    }
}

fn waiter(who: Who) -> bool
    ensures { result ≡ waiter_of who }
{
    matches!(who, Who::Waiter { .. })
}

// Is its own node registered? It is completed or not.
pub fn registered(part: Part) -> bool
    ensures { result ≡ registered_of part }
{
    match part {
        Part::Waiting => true,
        Part::Owning { who }
        | Part::SettingAside { who, .. }
        | Part::Reading { who, .. }
        | Part::Completing { who, .. } => waiter(who),
        _ => false,
    }
}
