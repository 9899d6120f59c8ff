// For the entries and crates above, which prove the ranges.
ghost use Rattle.std.specs.Prelude.{◌≡◌, ◌+◌, ◌≤◌, ◌<◌, ◌^◌, nat_abs, length, get_or};
ghost use Rattle.learn.specs.Sets.{Bits, place_of};
ghost use Rattle.learn.specs.Learning.{sample_of, piloted_at, sampled_by, set_learned, learned_slice, mean_noise};
ghost use Rattle.learn.specs.Ranges.{LearnOk};

use crate::{Learn, means};

// How many labels a set of so many bits has.
pub fn labels(bits: usize) -> usize
    requires { Bits bits }
    ensures { (result ≡ 2 ^ bits) × (2 ≤ result) × (result ≤ 32) }
{
    1usize << (bits as u32)
}

// Where the label of pilot t stands.
pub(crate) fn place(bits: usize, t: usize) -> usize
    requires { Bits bits }
    ensures { (result ≡ place_of bits t) × (result < 62) }
{
    let n = labels(bits);
    n - 2 + t % n
}

// One more pilot of the label at place a.
pub(crate) fn piloted(mut l: Learn, a: usize, zi: i16, zq: i16) -> Learn
    requires { (LearnOk l) × (a < 62) × (get_or l.count a 0 < 67108864) }
    ensures { result ≡ piloted_at l a zi zq }
{
    let i = 2 * a;
    let q = i + 1;
    l.sum[i] += zi as i64;
    l.sum[q] += zq as i64;
    l.count[a] += 1;
    l
}

fn sample(yi: i16, yq: i16, best: i64) -> i64
    requires { nat_abs best ≤ 2 ^ 33 }
    ensures { (result ≡ sample_of yi yq best) × (nat_abs result ≤ 2 ^ 34) }
{
    let i = yi as i64;
    let q = yq as i64;
    i * i + q * q + best
}

pub(crate) fn sampled(l: Learn, yi: i16, yq: i16, best: i64) -> Learn
    requires { (LearnOk l) × (l.samples < 67108864) × (nat_abs best ≤ 2 ^ 33) }
    ensures { result ≡ sampled_by l yi yq best }
{
    Learn {
        noise: l.noise + sample(yi, yq, best),
        samples: l.samples + 1,
        ..l
    }
}

// The means of a set into its part of the slice, if every label has a pilot; and whether.
pub fn pointed(l: Learn, bits: usize, learned: &mut [i16]) -> bool
    requires { (LearnOk l) × (Bits bits) × (length learned.old ≡ 124) }
    ensures { (result ≡ set_learned l bits) × (learned.new ≡ learned_slice l bits learned.old) }
{
    let n = labels(bits);
    let a = n - 2;
    if means::all_piloted(&l.count, a, n) {
        let s = 2 * a;
        let e = s + 2 * n;
        means::write(&l.sum, &l.count, s, &mut learned[s..e]);
        true
    } else {
        false
    }
}

// The rounded mean of the noise samples.
pub fn mean_noise(l: Learn) -> i64
    requires { (LearnOk l) × (0 < l.samples) }
    ensures { (result ≡ mean_noise l) × (nat_abs result ≤ 2 ^ 59 + 2 ^ 57) }
{
    fx::ranged::div_round(l.noise, l.samples as i64)
}
