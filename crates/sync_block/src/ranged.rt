// For the receiver, which proves the ranges.
// The ranges stand in each contract and not in a type with an invariant: a state is handed in by anyone and may be out of range, the entries refuse
// such a one and hand it back, and such a type could not hold it.
// Window and rows are flat, and the accumulators a slice: the compiler makes vectors of the loops over them, and each symbol passes here.
ghost use Rattle.std.specs.Prelude.{◌≡◌, ◌+◌, ◌≤◌, ◌<◌, ◌^◌, length};
ghost use Rattle.sync_corr.specs.Rows.{SmallRows};
ghost use Rattle.sync_step.specs.Ranges.{RunOk};
ghost use Rattle.sync_block.specs.Reach.{reach_of};
ghost use Rattle.sync_block.specs.Quiet.{rolled, roll_one};

use crate::reach as count;
use sync_lock::Tally;
use sync_step::Run;

// One quiet symbol: it completes the window at position p and tells nothing.
pub fn one(
    y: Tally,
    win: &mut [i16; 48],
    i: i16,
    q: i16,
    p: usize,
    rows: &[i16; 192],
    acc: &mut [u32],
) -> Tally
    requires { (length win.old ≡ 48) × (length acc.old ≡ 9296) × (p < 9296) × (y.sum ≤ 2 ^ 61) × (SmallRows rows.now) }
    ensures { (rolled win.new result acc.new ≡ roll_one rows.now i q p (rolled win.old y acc.old)) × (result.sum ≤ y.sum + 2 ^ 32) × (length win.new ≡ 48) }
{
    sync::ranged::shift(win, i, q);
    let b = sync_corr::ranged::dots(win, rows);
    let a = sync_lock::plain::leak(acc[p], sync_corr::plain::size(b));
    acc[p] = a;
    sync_lock::ranged::counted(y, p, a)
}

// How many symbols a call can take, the last of which alone may tell something.
pub fn reach(r: Run) -> usize
    requires { RunOk r }
    ensures { (result ≡ reach_of r) × (1 ≤ result) }
{
    count::reach(r)
}
