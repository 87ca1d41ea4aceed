// try_write, and the first attempt of write: one fetch-or of LOCKED.
ghost use Rattle.std.specs.Prelude.{◌≡◌};
ghost use Rattle.acquire.specs.TryWrite.{try_write_or_of};

use crate::lock_contended::contend_or_no;
use state::{Next, Stepped, View};

pub fn try_write_or(v: View, blocking: bool) -> Stepped
    ensures { result ≡ try_write_or_of v blocking }
{
    if v.word.locked() {
        return v.stays(contend_or_no(true, blocking));
    }
    v.writes(
        v.word.set_locked(),
        v.holding.granted_write(),
        Next::granted(blocking),
    )
}
