// Whether the entries of sums of at most n trainings are in range. No test ends a loop early, so that a turn has no branch.
ghost use Rattle.std.specs.Prelude.{◌≡◌, ◌+◌, ◌*◌, ◌-◌, ◌≤◌, ◌<◌};
ghost use Rattle.sums.specs.Sums.{upper_at};
ghost use Rattle.eq_train.specs.Ranges.{diagonal_in_range, product_in_range, row_in_range, right_in_range};

fn diagonal_in_range(n: u32, re: i64, im: i64) -> bool
    ensures { result ≡ diagonal_in_range n re im }
{
    let high = ((n as u64) * 2147483648) as i64;
    (0 <= re) & (re <= high) & (im == 0)
}

fn product_in_range(n: u32, re: i64, im: i64) -> bool
    ensures { result ≡ product_in_range n re im }
{
    let low = ((n as u64) * 2147418112) as i64;
    let high = ((n as u64) * 2147483648) as i64;
    let turn = ((n as u64) * 2147450880) as i64;
    (0 - low <= re) & (re <= high) & ((0 - turn <= im) & (im <= turn))
}

// The entries of row r, the first of which stands from at on.
pub(crate) fn row_in_range(n: u32, s: &[i64; 132], r: usize, at: usize) -> bool
    requires { (r < 11) × (at ≡ 2 * upper_at r r) × (at + 2 * (11 - r) ≤ 132) }
    ensures { result ≡ row_in_range n s.now r r (11 - r) }
{
    let mut all = diagonal_in_range(n, s[at], s[at + 1]);
    let mut k = at + 2;
    for c in r + 1..11 {
        let one = product_in_range(n, s[k], s[k + 1]);
        all = all & one;
        k += 2;
    }
    all
}

pub(crate) fn right_in_range(n: u32, p: &[i64; 22]) -> bool
    ensures { result ≡ right_in_range n p.now 0 11 }
{
    let mut all = true;
    for r in 0..11 {
        let one = product_in_range(n, p[2 * r], p[2 * r + 1]);
        all = all & one;
    }
    all
}
