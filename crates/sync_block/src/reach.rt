// How many symbols a call can take.
ghost use Rattle.std.specs.Prelude.{◌≡◌, ◌≤◌, ◌<◌};
ghost use Rattle.sync_step.specs.Ranges.{RunOk};
ghost use Rattle.sync_block.specs.Reach.{loud_place, until_loud, reach_of};

use sync_lock::Lock;
use sync_step::Run;

// The place of the next loud symbol's window, from place p on.
fn loud_place(k: Lock, p: usize) -> usize
    requires { p < 9296 }
    ensures { (result ≡ loud_place k p) × (p ≤ result) × (result < 65536) }
{
    match k {
        Lock::Search { cand: _, count: _ } => 9295,
        Lock::Locked { offset, misses: _ } => {
            if p <= (offset as usize) {
                offset as usize
            } else {
                9295
            }
        }
    }
}

fn until(r: Run) -> usize
    ensures { (result ≡ until_loud r) × (1 ≤ result) }
{
    if r.t < 23 {
        1
    } else {
        let p = sync_step::plain::place(r.t);
        loud_place(r.lock, p) - p + 1
    }
}

pub(crate) fn reach(r: Run) -> usize
    requires { RunOk r }
    ensures { (result ≡ reach_of r) × (1 ≤ result) }
{
    let n = until(r);
    let left = 4611686018427387904 - (r.base + r.t);
    if (n as u64) < left { n } else { left as usize }
}
