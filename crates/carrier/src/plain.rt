// What the crates above share and needs nothing of its caller.
ghost use Rattle.std.specs.Prelude.{◌≡◌};
ghost use Rattle.carrier.specs.Carrier.{started_nco, advanced_nco};
ghost use Rattle.carrier.specs.Ranges.{steps_in_range, nco_in_range};

use crate::{Nco, Steps};

pub fn started(phase: u32, freq: i32) -> Nco
    ensures { result ≡ started_nco phase freq }
{
    Nco {
        phase,
        freq,
        trail: None,
    }
}

// The phase after a symbol.
pub fn advanced(n: Nco) -> Nco
    ensures { result ≡ advanced_nco n }
{
    Nco {
        phase: angles::ranged::turn_on(n.phase, n.freq as i64),
        ..n
    }
}

fn steps_in_range(s: Steps) -> bool
    ensures { result ≡ steps_in_range s }
{
    (s.steps <= 59) & (-126701535232 <= s.sum) & (s.sum <= 126701535173)
}

pub(crate) fn in_range(n: Nco) -> bool
    ensures { result ≡ nco_in_range n }
{
    n.trail.is_none_or(steps_in_range)
}
