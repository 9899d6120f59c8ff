// For carrier and phase, which prove the ranges.
ghost use Rattle.std.specs.Prelude.{◌≡◌, ◌^◌, ◌≤◌, unsigned_abs};
ghost use Rattle.angles.specs.Angles.{turned_by, turned_back};

use fx::{CosSin, Parts};

// An angle turned on by a step of either sign. 2^61 is a whole number of turns, so the sum is not negative and its remainder is the angle.
pub fn turn_on(a: u32, step: i64) -> u32
    requires { unsigned_abs step ≤ 2 ^ 60 }
    ensures { result ≡ turned_by a step }
{
    let v = step + (a as i64) + 0x2000_0000_0000_0000;
    ((v as u64) % 0x1_0000_0000) as u32
}

// A symbol turned back by an angle, which is given by its cosine and sine, and rounded by s bits. No Symbol goes in: carrier has
// bytes and phase 16 bits, and both are widened by the caller.
pub fn turn_back(p: CosSin, i: i64, q: i64, s: u32) -> Parts
    requires { (unsigned_abs p.cos ≤ 32768) × (unsigned_abs p.sin ≤ 32768) × (unsigned_abs i ≤ 32768) × (unsigned_abs q ≤ 32768) × (s ≤ 60) }
    ensures { result ≡ turned_back p i q s }
{
    Parts {
        re: fx::ranged::round_shift(i * p.cos + q * p.sin, s),
        im: fx::ranged::round_shift(q * p.cos - i * p.sin, s),
    }
}
