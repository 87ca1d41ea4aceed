// try_read, and the first attempt of read: load, then weak compare to read_lock, retried on the word reported.
ghost use Rattle.std.specs.Prelude.{◌≡◌};
ghost use Rattle.acquire.specs.TryRead.{try_read_judged, try_read_load_of, try_read_cas_of};

use crate::lock_contended::contend_or_no;
use state::{Next, Place, Stepped, View};
use word::Word;

fn try_read_judged(v: View, blocking: bool, seen: Word) -> Stepped
    ensures { result ≡ try_read_judged v blocking seen }
{
    match seen.read_lock() {
        Some(_) => v.stays(Next::at(Place::TryReadCas { blocking, seen })),
        None => v.stays(contend_or_no(false, blocking)),
    }
}

pub fn try_read_load(v: View, blocking: bool) -> Stepped
    ensures { result ≡ try_read_load_of v blocking }
{
    try_read_judged(v, blocking, v.word)
}

// A word that read_lock refuses cannot be compared to anything: it is judged as a failed compare.
pub fn try_read_cas(v: View, blocking: bool, seen: Word) -> Stepped
    ensures { result ≡ try_read_cas_of v blocking seen }
{
    if v.agrees(seen)
        && let Some(to) = seen.read_lock()
    {
        v.writes(to, v.holding.granted_read(), Next::granted(blocking))
    } else {
        try_read_judged(v, blocking, v.word)
    }
}
