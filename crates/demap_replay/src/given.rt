// States as calls put them together, number by number. A field takes the low bits of its number, as many as it has.
ghost use Rattle.std.specs.Prelude.{◌≡◌};
ghost use Rattle.demap_replay.specs.Given.{sum_put, count_put, noise_put, source_of, force_of};

use in_force::InForce;
use learn::Learn;
use wire::Field;

// Another sum k, if there is one.
pub(crate) fn sum_put(mut l: Learn, k: u64, v: i64) -> Learn
    ensures { result ≡ sum_put l k v }
{
    if k < 124 {
        l.sum[k as usize] = v;
    }
    l
}

// Another count k, if there is one.
pub(crate) fn count_put(mut l: Learn, k: u64, v: u32) -> Learn
    ensures { result ≡ count_put l k v }
{
    if k < 62 {
        l.count[k as usize] = v;
    }
    l
}

pub(crate) fn noise_put(l: Learn, noise: i64, samples: u32) -> Learn
    ensures { result ≡ noise_put l noise samples }
{
    Learn {
        noise,
        samples,
        ..l
    }
}

fn source_at(p: &[u64; 24]) -> Option<u32>
    ensures { result ≡ source_of p.now }
{
    if p[8] == 0 {
        None
    } else {
        Some(u32::of_bits(p[9]))
    }
}

// What is in force by numbers 1 to 9.
pub(crate) fn force_at(p: &[u64; 24]) -> InForce
    ensures { result ≡ force_of p.now }
{
    let s = source_at(p);
    InForce {
        learned: [p[1] != 0, p[2] != 0, p[3] != 0, p[4] != 0, p[5] != 0],
        n0: i64::of_bits(p[6]),
        k: i64::of_bits(p[7]),
        from: s,
    }
}
