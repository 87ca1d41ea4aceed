// A place by number, and the values that it carries, each 0 where a place has none.
use state::{Place, Walk, Who};
use word::{NodeNumber, Word};

// The row of docs/PLACES.md, from Idle at 0.
pub(crate) fn number(place: Place) -> u64 {
    match place {
        Place::Idle => 0,
        Place::TryReadLoad { .. } => 1,
        Place::TryReadCas { .. } => 2,
        Place::TryWriteOr { .. } => 3,
        Place::ContendLoad { .. } => 4,
        Place::ContendCas { .. } => 5,
        Place::RegisterCas { .. } => 6,
        Place::CompletedLoad { .. } => 7,
        Place::Park { .. } => 8,
        Place::WalkTail { .. } => 9,
        Place::WalkNext { .. } => 10,
        Place::WalkPrev { .. } => 11,
        Place::WalkHead { .. } => 12,
        Place::QueueCas { .. } => 13,
        Place::SplitPrev { .. } => 14,
        Place::SplitStore { .. } => 15,
        Place::SplitCas { .. } => 16,
        Place::SplitRestore { .. } => 17,
        Place::TakeCas { .. } => 18,
        Place::WakePrev { .. } => 19,
        Place::WakeStore { .. } => 20,
        Place::ReadUnlockLoad => 21,
        Place::ReadUnlockCas { .. } => 22,
        Place::Subtract { .. } => 23,
        Place::WriteUnlockCas => 24,
        Place::ReleaseCas { .. } => 25,
        Place::DowngradeCas => 26,
        Place::DowngradeSlowCas { .. } => 27,
    }
}

// What the thread does in the queue, from its walk on.
fn walk(place: Place) -> Option<Walk> {
    match place {
        Place::WalkTail { walk, .. }
        | Place::WalkNext { walk, .. }
        | Place::WalkPrev { walk, .. }
        | Place::WalkHead { walk, .. } => Some(walk),
        Place::QueueCas { who, .. }
        | Place::SplitPrev { who, .. }
        | Place::SplitStore { who, .. }
        | Place::SplitCas { who, .. }
        | Place::SplitRestore { who, .. }
        | Place::TakeCas { who, .. }
        | Place::WakePrev { who, .. }
        | Place::WakeStore { who, .. } => Some(Walk::Queue { who }),
        _ => None,
    }
}

fn walk_number(walk: Walk) -> u64 {
    match walk {
        Walk::Queue { who: Who::Leaver } => 0,
        Walk::Queue {
            who: Who::Waiter { writer },
        } => 1 + u64::from(writer),
        Walk::ReadUnlock => 3,
        Walk::Downgrade => 4,
    }
}

// Blocking, writer, or what is done in the queue.
pub(crate) fn role(place: Place) -> u64 {
    match place {
        Place::TryReadLoad { blocking }
        | Place::TryReadCas { blocking, .. }
        | Place::TryWriteOr { blocking } => u64::from(blocking),
        Place::ContendLoad { writer, .. }
        | Place::ContendCas { writer, .. }
        | Place::RegisterCas { writer, .. }
        | Place::CompletedLoad { writer }
        | Place::Park { writer } => u64::from(writer),
        _ => walk(place).map_or(0, walk_number),
    }
}

pub(crate) fn reloads(place: Place) -> u64 {
    match place {
        Place::ContendLoad { reloads, .. }
        | Place::ContendCas { reloads, .. }
        | Place::RegisterCas { reloads, .. } => u64::from(reloads),
        _ => 0,
    }
}

pub(crate) fn seen(place: Place) -> Word {
    match place {
        Place::TryReadCas { seen, .. }
        | Place::ContendCas { seen, .. }
        | Place::RegisterCas { seen, .. }
        | Place::WalkTail { seen, .. }
        | Place::WalkNext { seen, .. }
        | Place::WalkPrev { seen, .. }
        | Place::WalkHead { seen, .. }
        | Place::QueueCas { seen, .. }
        | Place::SplitPrev { seen, .. }
        | Place::SplitStore { seen, .. }
        | Place::SplitCas { seen, .. }
        | Place::SplitRestore { seen, .. }
        | Place::TakeCas { seen, .. }
        | Place::ReadUnlockCas { seen }
        | Place::Subtract { seen, .. }
        | Place::ReleaseCas { seen }
        | Place::DowngradeSlowCas { seen } => seen,
        _ => Word(0),
    }
}

// What a store stores, or the node of a load.
pub(crate) fn node(place: Place) -> NodeNumber {
    match place {
        Place::WalkTail { current, .. }
        | Place::WalkNext { current, .. }
        | Place::WalkPrev { current, .. }
        | Place::WakePrev { current, .. }
        | Place::WakeStore { current, .. } => current,
        Place::WalkHead { tail, .. }
        | Place::SplitPrev { tail, .. }
        | Place::SplitCas { tail, .. }
        | Place::SplitRestore { tail, .. }
        | Place::TakeCas { tail, .. }
        | Place::Subtract { tail, .. } => tail,
        Place::SplitStore { prev, .. } => prev,
        _ => NodeNumber::NONE,
    }
}

// Beside the node, the number of another, or of the word that a compare reported.
pub(crate) fn beside(place: Place) -> u64 {
    match place {
        Place::WalkPrev { next, .. } => next.0,
        Place::SplitStore { tail, .. } => tail.0,
        Place::SplitRestore { reported, .. } => reported.0,
        Place::WakeStore { prev, .. } => prev.0,
        _ => 0,
    }
}

// Is the thread's own node filled: does it go to register it, or wait on it?
pub(crate) fn is_filled(place: Place) -> bool {
    let waits = matches!(
        place,
        Place::RegisterCas { .. } | Place::CompletedLoad { .. } | Place::Park { .. }
    );
    let walks_as_waiter = matches!(
        walk(place),
        Some(Walk::Queue {
            who: Who::Waiter { .. }
        })
    );
    waits || walks_as_waiter
}
