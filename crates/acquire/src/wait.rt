// Node::wait: load completed; while it is clear, park and load again.
ghost use Rattle.std.specs.Prelude.{◌≡◌};
ghost use Rattle.acquire.specs.Wait.{completed_load_of, park_of};

use state::{Next, Place, Stepped, View};

// Completed: start again, with a load of its own and no reloads.
pub fn completed_load(v: View, writer: bool) -> Stepped
    ensures { result ≡ completed_load_of v writer }
{
    v.stays(Next::at(if v.node.completed {
        Place::ContendLoad { writer, reloads: 0 }
    } else {
        Place::Park { writer }
    }))
}

// park consumes the token; returning for no cause keeps it.
pub fn park(v: View, writer: bool) -> Stepped
    ensures { result ≡ park_of v writer }
{
    v.parks(
        v.fails && v.token,
        Next::at(Place::CompletedLoad { writer }),
    )
}
