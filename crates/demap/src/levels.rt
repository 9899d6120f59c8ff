// The soft bits from a table of metrics, from the top bit down. Once a bit's value is known the table drops that bit: it keeps the lesser of
// the two metrics that differ in it, so that each bit costs half as much as the one before.
ghost use Rattle.std.specs.Prelude.{◌≡◌, ◌++◌, ℕ, ◌+◌, ◌≤◌, ◌<◌, ◌^◌, nat_abs, length, drop};
ghost use Rattle.laws.specs.Ranges.{min_z, firsts};
ghost use Rattle.demap.specs.Demap.{least_metric, soft_of, soft_bits};
ghost use Rattle.demap.specs.Folds.{Small, entry, fold, half_gap};

use crate::ranged;

fn lesser(a: i64, b: i64) -> i64
    ensures { result ≡ min_z a b }
{
    if b < a { b } else { a }
}

// The soft value of the table's top bit, of weight half, which the table then drops.
fn level(m: &mut [i64; 32], half: usize, k: i64) -> i8
    requires { (0 < half) × (half ≤ 16) × (nat_abs k ≤ 2 ^ 24) × (length m.old ≡ 32) × ((l : ℕ) → l < half + half → Small (entry m.old l)) }
    ensures { (result ≡ soft_of (half_gap (entry m.old) half) k) × (m.new ≡ firsts (fold (entry m.old) half) half ++ drop half m.old) }
{
    let mut a = m[0];
    let mut b = m[half];
    for t in 0..half {
        let x = m[t];
        let y = m[half + t];
        a = lesser(a, x);
        b = lesser(b, y);
        m[t] = lesser(x, y);
    }
    ranged::soft(b - a, k)
}

// All soft bits, and the least metric, which is what is left of the table. Five turns, as for the metrics.
pub(crate) fn all_levels(m: &mut [i64; 32], bits: usize, k: i64, out: &mut [i8]) -> i64
    requires { (0 < bits) × (bits ≤ 5) × (bits ≤ length out.old) × (nat_abs k ≤ 2 ^ 24) × (length m.old ≡ 32) × ((l : ℕ) → l < 2 ^ bits → Small (entry m.old l)) }
    ensures { (result ≡ least_metric (entry m.old) (2 ^ bits)) × (out.new ≡ soft_bits (entry m.old) bits k ++ drop bits out.old) }
{
    for b in (0usize..5).rev() {
        if b < bits {
            out[bits - 1 - b] = level(m, 1usize << (b as u32), k);
        }
    }
    m[0]
}
