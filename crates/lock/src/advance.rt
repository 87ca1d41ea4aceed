// One step at a place: each place has a function of its own.
ghost use Rattle.std.specs.Prelude.{◌≡◌};
ghost use Rattle.lock.specs.Advance.{advance_of};

use state::{Place, Refusal, Stepped, View};

#[tactic(auto, unfolding(crate::specs::Advance::advance_of))]
pub(crate) fn advance(v: View, place: Place) -> Stepped
    ensures { result ≡ advance_of v place }
{
    match place {
        Place::Idle => Err(Refusal::NotInCall),
        Place::TryReadLoad { blocking } => acquire::try_read_load(v, blocking),
        Place::TryReadCas { blocking, seen } => acquire::try_read_cas(v, blocking, seen),
        Place::TryWriteOr { blocking } => acquire::try_write_or(v, blocking),
        Place::ContendLoad { writer, reloads } => acquire::contend_load(v, writer, reloads),
        Place::ContendCas {
            writer,
            reloads,
            seen,
        } => acquire::contend_cas(v, writer, reloads, seen),
        Place::RegisterCas {
            writer,
            reloads,
            seen,
        } => acquire::register_cas(v, writer, reloads, seen),
        Place::CompletedLoad { writer } => acquire::completed_load(v, writer),
        Place::Park { writer } => acquire::park(v, writer),
        Place::WalkTail {
            walk,
            seen,
            current,
        } => walk::walk_tail(v, walk, seen, current),
        Place::WalkNext {
            walk,
            seen,
            current,
        } => walk::walk_next(v, walk, seen, current),
        Place::WalkPrev {
            walk,
            seen,
            current,
            next,
        } => walk::walk_prev(v, walk, seen, current, next),
        Place::WalkHead { walk, seen, tail } => unlock::walk_head(v, walk, seen, tail),
        Place::QueueCas { who, seen } => unlock::queue_cas(v, who, seen),
        Place::SplitPrev { who, seen, tail } => unlock::split_prev(v, who, seen, tail),
        Place::SplitStore {
            who,
            seen,
            tail,
            prev,
        } => unlock::split_store(v, who, seen, tail, prev),
        Place::SplitCas { who, seen, tail } => unlock::split_cas(v, who, seen, tail),
        Place::SplitRestore {
            who,
            seen,
            tail,
            reported,
        } => unlock::split_restore(v, who, seen, tail, reported),
        Place::TakeCas { who, seen, tail } => unlock::take_cas(v, who, seen, tail),
        Place::WakePrev { who, current } => walk::wake_prev(v, who, current),
        Place::WakeStore { who, current, prev } => walk::wake_store(v, who, current, prev),
        Place::ReadUnlockLoad => release::read_unlock_load(v),
        Place::ReadUnlockCas { seen } => release::read_unlock_cas(v, seen),
        Place::Subtract { seen, tail } => release::subtract(v, seen, tail),
        Place::WriteUnlockCas => release::write_unlock_cas(v),
        Place::ReleaseCas { seen } => release::release_cas(v, seen),
        Place::DowngradeCas => release::downgrade_cas(v),
        Place::DowngradeSlowCas { seen } => release::downgrade_slow_cas(v, seen),
    }
}
