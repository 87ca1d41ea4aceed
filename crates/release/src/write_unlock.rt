// write_unlock: strong compare 1 to 0, else release.
ghost use Rattle.std.specs.Prelude.{◌≡◌};
ghost use Rattle.release.specs.WriteUnlock.{write_unlock_cas_of};

use state::{Answer, Next, Place, Stepped, View};
use word::{ONE_WRITER, Word};

pub fn write_unlock_cas(v: View) -> Stepped
    ensures { result ≡ write_unlock_cas_of v }
{
    if v.word == ONE_WRITER {
        v.writes(
            Word::FREE,
            v.holding.released_write(),
            Next::end(Answer::Done),
        )
    } else {
        v.stays(Next::at(Place::ReleaseCas { seen: v.word }))
    }
}
