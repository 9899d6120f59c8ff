// What the crates above share and needs nothing of its caller.
ghost use Rattle.std.specs.Prelude.{◌≡◌, ◌+◌, ◌*◌, ◌-◌, ◌<◌};
ghost use Rattle.eq_train.specs.Ranges.{sums_in_range, upper_in_range};

use crate::ranges;
use sums::Sums;

pub fn in_range(s: Sums) -> bool
    ensures { result ≡ sums_in_range s }
{
    (s.count <= 4194304) & upper_in_range(4194304, &s.r) & ranges::right_in_range(4194304, &s.p)
}

// The entries of the upper half, of at most n trainings.
pub fn upper_in_range(n: u32, s: &[i64; 132]) -> bool
    ensures { result ≡ upper_in_range n s.now 0 11 }
{
    let mut all = true;
    let mut at: usize = 0;
    for r in 0..11 {
        let one = ranges::row_in_range(n, s, r, at);
        all = all & one;
        at += 2 * (11 - r);
    }
    all
}
