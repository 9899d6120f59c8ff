// The functions of this crate that crates above call with arguments in range: plain values, by the entries' own definitions.
// The table is lent as a slice of any length, and the entries refuse each but 1,024; so its length stands in the contracts and not in a type.
ghost use Rattle.std.specs.Prelude.{◌≡◌, ◌+◌, ◌^◌, ◌<◌, ◌≤◌, false, length, pos, int_lt, unsigned_abs};
ghost use Rattle.fx.specs.Fx.{round_shift, div_round, mag_approx, round_index, cos_sin_at};
ghost use Rattle.fx.specs.Cordic.{cordic_of};

use crate::{CosSin, Polar, turns};

pub fn round_shift(v: i64, s: u32) -> i64
    requires { (unsigned_abs v ≤ 2 ^ 60) × (s ≤ 60) }
    ensures { result ≡ round_shift v s }
{
    if s == 0 {
        v
    } else {
        (v + (1i64 << (s - 1))) >> s
    }
}

pub fn div_round(a: i64, b: i64) -> i64
    requires { (unsigned_abs a ≤ 2 ^ 60) × (unsigned_abs b ≤ 2 ^ 60) × (int_lt b (pos 1) ≡ false) }
    ensures { result ≡ div_round a b }
{
    (a + a + b).div_euclid(2 * b)
}

pub fn mag_approx(re: i64, im: i64) -> i64
    requires { (unsigned_abs re ≤ 2 ^ 60) × (unsigned_abs im ≤ 2 ^ 60) }
    ensures { result ≡ pos (mag_approx re im) }
{
    let a = re.unsigned_abs();
    let b = im.unsigned_abs();
    if a < b {
        (b + a / 2) as i64
    } else {
        (a + b / 2) as i64
    }
}

pub fn cordic(re: i64, im: i64) -> Polar
    requires { (unsigned_abs re < 2 ^ 22) × (unsigned_abs im < 2 ^ 22) }
    ensures { result ≡ cordic_of re im }
{
    let t = turns::turned(re, im);
    let size = round_shift(t.x * 39797, 24);
    Polar { angle: t.z, size }
}

pub fn cos_sin_round(table: &[i16], a: u32) -> CosSin
    requires { length table.now ≡ 1024 }
    ensures { (result ≡ cos_sin_at table.now (round_index a)) × (unsigned_abs result.cos ≤ 32768) × (unsigned_abs result.sin ≤ 32768) }
{
    turns::cos_sin_at(
        table,
        (std::num::wrapping_add_u32(a, 0x20_0000) / 0x40_0000) as usize,
    )
}
