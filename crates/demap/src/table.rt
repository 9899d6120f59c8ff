// The table of the metrics of all labels.
ghost use Rattle.std.specs.Prelude.{◌≡◌, ◌*◌, ◌≤◌, ◌<◌, ◌^◌, nat_abs, length};
ghost use Rattle.demap.specs.Demap.{label_metric};
ghost use Rattle.demap.specs.Folds.{by_twice, label_by_twice, Small, Holds};

// The metric of a point, from twice the symbol's parts: |p|^2 - 2 (yi pi + yq pq) by two products.
pub(crate) fn by_twice(ti: i64, tq: i64, pi: i16, pq: i16) -> i64
    requires { (nat_abs ti ≤ 2 ^ 16) × (nat_abs tq ≤ 2 ^ 16) }
    ensures { (result ≡ by_twice ti tq pi pq) × Small (by_twice ti tq pi pq) }
{
    let c = pi as i64;
    let d = pq as i64;
    c * (c - ti) + d * (d - tq)
}

// The metrics of the labels from a to n, where those below a are there.
fn more_metrics(m: &mut [i64; 32], points: &[i16], ti: i64, tq: i64, a: usize, n: usize)
    requires { (a ≤ n) × (n ≤ 32) × (2 * n ≤ length points.now) × (nat_abs ti ≤ 2 ^ 16) × (nat_abs tq ≤ 2 ^ 16) × (length m.old ≡ 32) × Holds (label_by_twice ti tq points.now) a m.old }
    ensures { (length m.new ≡ 32) × Holds (label_by_twice ti tq points.now) n m.new }
{
    for i in a..n {
        m[i] = by_twice(ti, tq, points[2 * i], points[2 * i + 1]);
    }
}

// The metrics of all labels. The turns are five for any number of bits, so that the compiler knows the range of each.
pub(crate) fn all_metrics(m: &mut [i64; 32], yi: i16, yq: i16, points: &[i16], bits: usize)
    requires { (0 < bits) × (bits ≤ 5) × (length points.now ≡ 2 * 2 ^ bits) × (length m.old ≡ 32) }
    ensures { (length m.new ≡ 32) × Holds (label_metric yi yq points.now) (2 ^ bits) m.new }
{
    let ti = 2 * (yi as i64);
    let tq = 2 * (yq as i64);
    more_metrics(m, points, ti, tq, 0, 1);
    for b in 0..5 {
        if b < bits {
            let h = 1usize << (b as u32);
            more_metrics(m, points, ti, tq, h, 2 * h);
        }
    }
}
