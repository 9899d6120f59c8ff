// What a new receiver starts with.
ghost use Rattle.std.specs.Prelude.{◌≡◌};
ghost use Rattle.receiver.specs.Started.{no_points, new_kept};

use crate::Kept;
use receiver_slot::Points;

fn no_points() -> Points
    ensures { result ≡ no_points }
{
    Points {
        bits: 0,
        points: [0i16; 64],
        k: 0,
    }
}

pub(crate) fn new_kept(step: i32) -> Kept
    ensures { result ≡ new_kept step }
{
    let e = eq::new();
    let taps = e.taps;
    let from = e.from;
    Kept {
        phase: 0,
        freq: step,
        taps: taps,
        from: from,
        points: no_points(),
        last: None,
    }
}
