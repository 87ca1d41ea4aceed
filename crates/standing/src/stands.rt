// Where a thread's node stands: in the queue, set aside, in a waker's list, completed, or nowhere as it does not wait.
ghost use Rattle.std.specs.Prelude.{◌≡◌};
ghost use Rattle.standing.specs.Stands.{aside_in, in_list_of, held_by, held_at, held_below};
ghost use Rattle.standing.specs.Stands.{waiting_of, standing_of};

use crate::look::{completed_of, listed, met, record_of};
use crate::part::{Part, part_at, registered};
use listing::listing::{from_head, listing};
use state::Machine;
use word::{NodeNumber, ThreadNumber};

#[derive(Clone, Copy)]
pub enum Standing {
    NotWaiting,
    Completed,
    InQueue,
    SetAside { by: ThreadNumber },
    InList { by: ThreadNumber },
    // Of a damaged machine.
    Nowhere,
}

fn aside_in(part: Part, n: NodeNumber) -> bool
    ensures { result ≡ aside_in part n }
{
    matches!(part, Part::SettingAside { tail, .. } if tail == n)
}

// A downgrade's list is read by next until its walk is over, a waker's by prev from the node it stands on.
fn in_list(m: Machine, part: Part, n: NodeNumber) -> bool
    ensures { result ≡ in_list_of m part n }
{
    match part {
        Part::Walking { head } => listed(from_head(m, head), n),
        Part::Reading { current, .. } => met(m, n, current, m.count),
        Part::Completing { current, prev, .. } => current == n || met(m, n, prev, m.count),
        _ => false,
    }
}

fn held_by(m: Machine, by: ThreadNumber, part: Part, n: NodeNumber, before: Standing) -> Standing
    ensures { result ≡ held_by m by.0 part n before }
{
    if aside_in(part, n) {
        Standing::SetAside { by }
    } else if in_list(m, part, n) {
        Standing::InList { by }
    } else {
        before
    }
}

fn held_at(m: Machine, t: ThreadNumber, n: NodeNumber, before: Standing) -> Standing
    ensures { result ≡ held_at m t.0 n before }
{
    held_by(m, t, part_at(record_of(m, t).place), n, before)
}

// By whom a node that is not in the queue is held.
#[tactic(auto, using(crate::specs::LookLaws::held_none, crate::specs::LookLaws::held_more))]
fn held(m: Machine, n: NodeNumber) -> Standing
    ensures { result ≡ held_below m.count m n }
{
    let mut standing = Standing::Nowhere;
    for k in 0..m.count {
        standing = held_at(m, ThreadNumber(k), n, standing);
    }
    standing
}

fn waiting(m: Machine, t: ThreadNumber) -> Standing
    ensures { result ≡ waiting_of m t }
{
    if completed_of(m, t) {
        Standing::Completed
    } else if listed(listing(m), t.node()) {
        Standing::InQueue
    } else {
        held(m, t.node())
    }
}

pub fn stands(m: Machine, t: ThreadNumber) -> Standing
    ensures { result ≡ standing_of m t }
{
    if registered(part_at(record_of(m, t).place)) {
        waiting(m, t)
    } else {
        Standing::NotWaiting
    }
}
