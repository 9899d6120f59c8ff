// What the crates above share and needs nothing of its caller.
ghost use Rattle.std.specs.Prelude.{◌≡◌, ◌<◌};
ghost use Rattle.phase.specs.Phase.{begun_of};
ghost use Rattle.phase.specs.Ranges.{phase_in_range, held_in_range};

use crate::Held;
use sync_heads::Head;

// A head's slot, of which no symbol came yet.
pub fn begun(h: Head) -> Option<Held>
    ensures { result ≡ begun_of h }
{
    Some(Held { head: h, count: 0 })
}

fn held_in_range(x: Held) -> bool
    ensures { result ≡ held_in_range x }
{
    !fx::plain::wide(x.head.amp) & (x.head.at < 0x4000_0000_0000_0000) & (x.count <= 9296)
}

pub(crate) fn in_range(s: Option<Held>) -> bool
    ensures { result ≡ phase_in_range s }
{
    s.is_none_or(held_in_range)
}
