// What the crates above share and needs nothing of its caller.
ghost use Rattle.std.specs.Prelude.{◌≡◌};
ghost use Rattle.receiver.specs.Ranges.{front_within, receiver_in_range};
ghost use Rattle.receiver.specs.Started.{started, kept_of};
ghost use Rattle.receiver.specs.Answers.{range_refusal};

use crate::{Front, Kept, Receiver};
use refusal::Refusal;

fn front_within(a: Front) -> bool
    ensures { result ≡ front_within a }
{
    receiver_bounds::plain::nco_within(a.nco)
        & receiver_bounds::ranged::window_within(&a.sync.win)
        & receiver_bounds::plain::run_within(a.sync.run)
        & receiver_bounds::plain::phase_within(a.phase)
}

// Every number in the range that receiver calls leave.
pub fn receiver_within(r: Receiver) -> bool
    ensures { result ≡ receiver_in_range r }
{
    front_within(r.front)
        & receiver_bounds::plain::back_within(r.back)
        & receiver_bounds::plain::points_within(r.points)
}

pub fn range_refusal(r: Receiver) -> Result<(), Refusal>
    ensures { result ≡ range_refusal r }
{
    if receiver_within(r) {
        Ok(())
    } else {
        Err(Refusal::Arithmetic)
    }
}

// A receiver whose next symbol stands at this position.
pub fn started(at: u64, k: Kept) -> Receiver
    ensures { result ≡ started at k }
{
    Receiver {
        front: Front {
            nco: carrier::plain::started(k.phase, k.freq),
            sync: sync::plain::started(at, k.last),
            phase: None,
        },
        back: frame::plain::started(eq::plain::started(k.taps, k.from)),
        points: k.points,
    }
}

pub fn kept_of(r: Receiver) -> Kept
    ensures { result ≡ kept_of r }
{
    let n = r.front.nco;
    let e = r.back.eq;
    let taps = e.taps;
    let from = e.from;
    let points = r.points;
    let c = r.front.sync.run.course;
    let last = c.last;
    Kept {
        phase: n.phase,
        freq: n.freq,
        taps: taps,
        from: from,
        points: points,
        last: last,
    }
}
