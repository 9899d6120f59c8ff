// For the entries and the receiver, which prove the ranges.
ghost use Rattle.std.specs.Prelude.{◌≡◌, ◌≤◌, ◌^◌, nat_abs, length};
ghost use Rattle.learn.specs.Ranges.{LearnOk};
ghost use Rattle.in_force.specs.InForce.{set_flags, slices_learned, noise_after, renewed_of};

use crate::InForce;
use learn::Learn;

// Each learned set's points into their part of the slice, and which sets these are.
fn all_pointed(l: Learn, learned: &mut [i16]) -> [bool; 5]
    requires { (LearnOk l) × (length learned.old ≡ 124) }
    ensures { (result ≡ set_flags l) × (learned.new ≡ slices_learned l 5 learned.old) }
{
    let mut flags = [false; 5];
    for (i, flag) in flags.iter_mut().enumerate() {
        *flag = learn::ranged::pointed(l, i + 1, learned);
    }
    flags
}

// The noise figure of the samples, or without one that from before.
fn noise_after(l: Learn, old: i64) -> i64
    requires { (LearnOk l) × (nat_abs old ≤ 2 ^ 34) }
    ensures { (result ≡ noise_after l old) × (nat_abs result ≤ 2 ^ 60) }
{
    if l.samples == 0 {
        old
    } else {
        learn::ranged::mean_noise(l)
    }
}

pub(crate) fn renewed(f: InForce, l: Learn, frame: u32, learned: &mut [i16]) -> InForce
    requires { (nat_abs f.n0 ≤ 2 ^ 34) × (LearnOk l) × (length learned.old ≡ 124) }
    ensures { (result ≡ renewed_of f l frame) × (learned.new ≡ slices_learned l 5 learned.old) }
{
    let n0 = noise_after(l, f.n0);
    let k = demap::ranged::scale(n0);
    let learned = all_pointed(l, learned);
    InForce {
        learned,
        n0,
        k,
        from: Some(frame),
    }
}
