// What the crates above share and needs nothing of its caller.
ghost use Rattle.std.specs.Prelude.{◌≡◌, ◌<◌};
ghost use Rattle.sync_step.specs.Step.{started_of, place_of};
ghost use Rattle.sync_step.specs.Ranges.{run_in_range};

use crate::{Run, ends};
use sync_heads::FrameHead;

// A sync that starts at a position, with the last frame record.
pub fn started(at: u64, last: Option<FrameHead>) -> Run
    ensures { result ≡ started_of at last }
{
    ends::started(at, last)
}

// The position in the period of the window that the next symbol completes, after t symbols.
pub fn place(t: u64) -> usize
    ensures { (result ≡ place_of 9296 t) × (result < 9296) }
{
    if t < 23 {
        0
    } else {
        ((t - 23) % 9296) as usize
    }
}

// Every number in the range that calls leave.
pub fn in_range(r: Run) -> bool
    ensures { result ≡ run_in_range r }
{
    (r.t <= 4611686018427387904)
        & sync_lock::plain::tally_in_range(r.tally)
        & sync_lock::plain::lock_in_range(r.lock)
        & sync_heads::plain::stage_in_range(r.stage)
        & sync_heads::plain::course_in_range(r.course)
}
