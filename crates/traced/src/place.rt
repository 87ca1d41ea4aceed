// A place by the name it has in docs/PLACES.md; asleep means at park.
ghost use Rattle.std.specs.Prelude.{◌≡◌};
ghost use Rattle.traced.specs.Place.{place_text};

use state::Place;

pub(crate) fn name_of(place: Place) -> &'static str
    ensures { result.now ≡ place_text place }
{
    match place {
        Place::Idle => "idle",
        Place::TryReadLoad { .. } => "at TryReadLoad",
        Place::TryReadCas { .. } => "at TryReadCas",
        Place::TryWriteOr { .. } => "at TryWriteOr",
        Place::ContendLoad { .. } => "at ContendLoad",
        Place::ContendCas { .. } => "at ContendCas",
        Place::RegisterCas { .. } => "at RegisterCas",
        Place::CompletedLoad { .. } => "at CompletedLoad",
        Place::Park { .. } => "asleep at Park",
        Place::WalkTail { .. } => "at WalkTail",
        Place::WalkNext { .. } => "at WalkNext",
        Place::WalkPrev { .. } => "at WalkPrev",
        Place::WalkHead { .. } => "at WalkHead",
        Place::QueueCas { .. } => "at QueueCas",
        Place::SplitPrev { .. } => "at SplitPrev",
        Place::SplitStore { .. } => "at SplitStore",
        Place::SplitCas { .. } => "at SplitCas",
        Place::SplitRestore { .. } => "at SplitRestore",
        Place::TakeCas { .. } => "at TakeCas",
        Place::WakePrev { .. } => "at WakePrev",
        Place::WakeStore { .. } => "at WakeStore",
        Place::ReadUnlockLoad => "at ReadUnlockLoad",
        Place::ReadUnlockCas { .. } => "at ReadUnlockCas",
        Place::Subtract { .. } => "at Subtract",
        Place::WriteUnlockCas => "at WriteUnlockCas",
        Place::ReleaseCas { .. } => "at ReleaseCas",
        Place::DowngradeCas => "at DowngradeCas",
        Place::DowngradeSlowCas { .. } => "at DowngradeSlowCas",
    }
}
