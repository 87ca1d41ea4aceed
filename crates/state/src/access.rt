// The one shared access that a place makes: what kind, and where.
ghost use Rattle.std.specs.Prelude.{◌≡◌};
ghost use Rattle.state.specs.Access.{access_of, touched_of, at_word_of, load_of, store_of};

use crate::place::Place;
use word::{NodeNumber, ThreadNumber};

#[derive(Clone, Copy, PartialEq, Eq)]
pub enum Kind {
    Nothing,
    Load,
    Store,
    WeakCompare,
    StrongCompare,
    FetchOr,
    Subtract,
    Complete,
    Park,
}

#[derive(Clone, Copy)]
pub enum Location {
    Nowhere,
    Word,
    Next(NodeNumber),
    Prev(NodeNumber),
    Tail(NodeNumber),
    Completed(NodeNumber),
    Token(ThreadNumber),
}

#[derive(Clone, Copy)]
pub struct Access {
    pub kind: Kind,
    pub location: Location,
}

// Short names, so that a row of the table over places says its kind and its location in two words.
fn at_word(kind: Kind) -> Access
    ensures { result ≡ at_word_of kind }
{
    Access {
        kind,
        location: Location::Word,
    }
}

fn load(location: Location) -> Access
    ensures { result ≡ load_of location }
{
    Access {
        kind: Kind::Load,
        location,
    }
}

fn store(location: Location) -> Access
    ensures { result ≡ store_of location }
{
    Access {
        kind: Kind::Store,
        location,
    }
}

impl Access {
    // The access of thread `me` at `place`.
    #[tactic(auto, unfolding(crate::specs::Access::access_of))]
    pub fn of(me: ThreadNumber, place: Place) -> Access
        ensures { result ≡ access_of me place }
    {
        match place {
            Place::Idle => Access {
                kind: Kind::Nothing,
                location: Location::Nowhere,
            },
            Place::TryReadLoad { .. } => at_word(Kind::Load),
            Place::TryReadCas { .. } => at_word(Kind::WeakCompare),
            Place::TryWriteOr { .. } => at_word(Kind::FetchOr),
            Place::ContendLoad { .. } => at_word(Kind::Load),
            Place::ContendCas { .. } => at_word(Kind::WeakCompare),
            Place::RegisterCas { .. } => at_word(Kind::WeakCompare),
            Place::CompletedLoad { .. } => load(Location::Completed(me.node())),
            Place::Park { .. } => Access {
                kind: Kind::Park,
                location: Location::Token(me),
            },
            Place::WalkTail { current, .. } => load(Location::Tail(current)),
            Place::WalkNext { current, .. } => load(Location::Next(current)),
            Place::WalkPrev { next, .. } => store(Location::Prev(next)),
            Place::WalkHead { seen, .. } => store(Location::Tail(seen.to_node())),
            Place::QueueCas { .. } => at_word(Kind::WeakCompare),
            Place::SplitPrev { tail, .. } => load(Location::Prev(tail)),
            Place::SplitStore { seen, .. } => store(Location::Tail(seen.to_node())),
            Place::SplitCas { .. } => at_word(Kind::WeakCompare),
            Place::SplitRestore { seen, .. } => store(Location::Tail(seen.to_node())),
            Place::TakeCas { .. } => at_word(Kind::WeakCompare),
            Place::WakePrev { current, .. } => load(Location::Prev(current)),
            Place::WakeStore { current, .. } => Access {
                kind: Kind::Complete,
                location: Location::Completed(current),
            },
            Place::ReadUnlockLoad => at_word(Kind::Load),
            Place::ReadUnlockCas { .. } => at_word(Kind::WeakCompare),
            Place::Subtract { tail, .. } => Access {
                kind: Kind::Subtract,
                location: Location::Next(tail),
            },
            Place::WriteUnlockCas => at_word(Kind::StrongCompare),
            Place::ReleaseCas { .. } => at_word(Kind::WeakCompare),
            Place::DowngradeCas => at_word(Kind::StrongCompare),
            Place::DowngradeSlowCas { .. } => at_word(Kind::WeakCompare),
        }
    }

    // The node that the access lies in; at the word or the token, the thread's own.
    pub fn touched(self, me: ThreadNumber) -> NodeNumber
        ensures { result ≡ touched_of self me }
    {
        match self.location {
            Location::Next(n) | Location::Prev(n) | Location::Tail(n) | Location::Completed(n) => n,
            Location::Nowhere | Location::Word | Location::Token(_) => me.node(),
        }
    }
}
