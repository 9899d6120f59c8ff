// For crates above, which prove the ranges: plain values, by the entries' own definitions.
ghost use Rattle.std.specs.Prelude.{◌≡◌, ◌++◌, ◌*◌, ◌/◌, ◌≤◌, ◌<◌, ◌^◌, nat_abs, length, drop};
ghost use Rattle.demap.specs.Demap.{label_metric, least_metric, lowest_label, soft_of, soft_bits, block_bits, scale_of};

use crate::{levels, table};

// The soft value of a gap between two least metrics.
pub(crate) fn soft(gap: i64, k: i64) -> i8
    requires { (nat_abs gap ≤ 2 ^ 34) × (nat_abs k ≤ 2 ^ 24) }
    ensures { result ≡ soft_of gap k }
{
    fx::plain::sat127(fx::ranged::round_shift(gap * k, 32))
}

// One symbol: its soft bits into out, from its start, and the least metric.
pub fn one(yi: i16, yq: i16, points: &[i16], bits: usize, k: i64, out: &mut [i8]) -> i64
    requires { (0 < bits) × (bits ≤ 5) × (length points.now ≡ 2 * 2 ^ bits) × (bits ≤ length out.old) × (nat_abs k ≤ 2 ^ 24) }
    ensures { (result ≡ least_metric (label_metric yi yq points.now) (2 ^ bits)) × (out.new ≡ soft_bits (label_metric yi yq points.now) bits k ++ drop bits out.old) }
{
    let mut m = [0i64; 32];
    table::all_metrics(&mut m, yi, yq, points, bits);
    levels::all_levels(&mut m, bits, k, out)
}

// Each symbol of a slice, one behind the other.
pub fn block(sy: &[i16], points: &[i16], bits: usize, k: i64, out: &mut [i8])
    requires { (0 < bits) × (bits ≤ 5) × (length points.now ≡ 2 * 2 ^ bits) × (nat_abs k ≤ 2 ^ 24) × (length sy.now / 2 * bits ≤ length out.old) }
    ensures { out.new ≡ block_bits sy.now points.now bits k (length sy.now / 2) ++ drop (length sy.now / 2 * bits) out.old }
{
    let n = sy.len() / 2;
    for s in 0..n {
        let o = s * bits;
        let e = o + bits;
        one(sy[2 * s], sy[2 * s + 1], points, bits, k, &mut out[o..e]);
    }
}

// The lowest of n labels whose metric is at most v; with the least metric, the lowest that has it. Asked for apart, so that a demap without it
// pays nothing.
pub(crate) fn lowest_label(yi: i16, yq: i16, points: &[i16], n: usize, v: i64) -> usize
    requires { length points.now ≡ 2 * n }
    ensures { result ≡ lowest_label (label_metric yi yq points.now) n v }
{
    let ti = 2 * (yi as i64);
    let tq = 2 * (yq as i64);
    for i in 0..n {
        let m = table::by_twice(ti, tq, points[2 * i], points[2 * i + 1]);
        if m <= v {
            return i;
        }
    }
    n
}

// The scale of noise n0. Up to 256 it is 2^32 / 256.
pub fn scale(n0: i64) -> i64
    requires { nat_abs n0 ≤ 2 ^ 60 }
    ensures { result ≡ scale_of n0 }
{
    if n0 < 256 {
        16777216
    } else {
        fx::ranged::div_round(4294967296, n0)
    }
}
