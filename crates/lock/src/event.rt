// One event: look, decide, store.
ghost use Rattle.std.specs.Prelude.{◌≡◌};
ghost use Rattle.lock.specs.Event.{event_of};

use crate::decide::decide;
use crate::landed::land;
use crate::look::look_at;
use state::{Machine, Outcome};
use word::ThreadNumber;

pub fn event(m: Machine, code: u8, me: ThreadNumber) -> Outcome
    ensures { result ≡ event_of m code me }
{
    let look = look_at(m, me);
    land(m, look, decide(look, code))
}
