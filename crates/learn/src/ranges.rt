// Whether the numbers of a state are in range.
ghost use Rattle.std.specs.Prelude.{◌≡◌};
ghost use Rattle.learn.specs.Ranges.{sums_in_range, counts_in_range, learn_in_range};

use crate::Learn;

fn sums_in_range(sum: &[i64; 124]) -> bool
    ensures { result ≡ sums_in_range sum.now }
{
    sum.iter()
        .all(|&z| (-2199023255552 <= z) & (z <= 2198956146688))
}

fn counts_in_range(count: &[u32; 62]) -> bool
    ensures { result ≡ counts_in_range count.now }
{
    count.iter().all(|&n| n <= 67108864)
}

pub fn in_range(l: Learn) -> bool
    ensures { result ≡ learn_in_range l }
{
    sums_in_range(&l.sum)
        & counts_in_range(&l.count)
        & (-576460752303423488 <= l.noise)
        & (l.noise <= 720575940379279360)
        & (l.samples <= 67108864)
}
