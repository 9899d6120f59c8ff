// The CORDIC's steps, the shift into its range, and the carrier table.
ghost use Rattle.std.specs.Prelude.{◌≡◌, ◌+◌, ◌-◌, ◌%◌, ◌^◌, ◌<◌, ◌≤◌, length, ◌+ℤ◌, ◌-ℤ◌, unsigned_abs};
ghost use Rattle.laws.specs.Choice.{when◌then◌else◌};
ghost use Rattle.fx.specs.Fx.{cos_sin_at};
ghost use Rattle.fx.specs.Cordic.{cordic_start, cordic_step, cordic_steps};
ghost use Rattle.fx.specs.Scale.{under_at, least_shift, cordic_scale};

use crate::{CosSin, Parts, Turn, sizes};

const ATAN: [u32; 16] = [
    536870912, 316933406, 167458907, 85004756, 42667331, 21354465, 10679838, 5340245, 2670163,
    1335087, 667544, 333772, 166886, 83443, 41722, 20861,
];

// In the right half-plane, eight bits up.
fn start(re: i64, im: i64) -> Turn
    requires { (unsigned_abs re < 2 ^ 22) × (unsigned_abs im < 2 ^ 22) }
    ensures { result ≡ cordic_start re im }
{
    let x = re * 256;
    let y = im * 256;
    if x < 0 {
        Turn {
            x: -x,
            y: -y,
            z: 0x8000_0000,
        }
    } else {
        Turn { x, y, z: 0 }
    }
}

// v + d or v - d. A choice of values, not a branch: the sign of y is as good as random.
fn moved(plus: bool, v: i64, d: i64) -> i64
    requires { (unsigned_abs v ≤ 2 ^ 61) × (unsigned_abs d ≤ 2 ^ 61) }
    ensures { result ≡ (when plus then v +ℤ d else v -ℤ d) }
{
    if plus { v + d } else { v - d }
}

fn swung(plus: bool, z: u32, a: u32) -> u32
    ensures { result ≡ (when plus then (z + a) % 2 ^ 32 else (z + (2 ^ 32 - a)) % 2 ^ 32) }
{
    if plus {
        std::num::wrapping_add_u32(z, a)
    } else {
        std::num::wrapping_sub_u32(z, a)
    }
}

fn step(t: Turn, i: usize, a: u32) -> Turn
    requires { (unsigned_abs t.x ≤ 2 ^ 61) × (unsigned_abs t.y ≤ 2 ^ 61) × (i < 16) }
    ensures { result ≡ cordic_step t i a }
{
    let x = t.x;
    let y = t.y;
    let plus = 0 < y;
    let minus = !plus;
    Turn {
        x: moved(plus, x, y >> i),
        y: moved(minus, y, x >> i),
        z: swung(plus, t.z, a),
    }
}

// All sixteen steps. The table is copied once: read in place, it would be copied at each step.
pub(crate) fn turned(re: i64, im: i64) -> Turn
    requires { (unsigned_abs re < 2 ^ 22) × (unsigned_abs im < 2 ^ 22) }
    ensures { result ≡ cordic_steps 16 (cordic_start re im) }
{
    let atan = ATAN;
    let mut t = start(re, im);
    for i in 0..16 {
        t = step(t, i, atan[i]);
    }
    t
}

// Whether a shift by s brings both parts into the CORDIC's range.
fn under(re: i64, im: i64, s: u32) -> bool
    requires { s < 64 }
    ensures { result ≡ under_at re im s }
{
    ((re >> s).unsigned_abs() < sizes::CORDIC_MAX_IN)
        & ((im >> s).unsigned_abs() < sizes::CORDIC_MAX_IN)
}

fn least_shift(re: i64, im: i64) -> u32
    ensures { (result ≡ least_shift re im) × (result ≤ 39) }
{
    for s in 0..39 {
        if under(re, im, s) {
            return s;
        }
    }
    39
}

pub(crate) fn scale(re: i64, im: i64) -> Parts
    ensures { result ≡ cordic_scale re im }
{
    let s = least_shift(re, im);
    Parts {
        re: re >> s,
        im: im >> s,
    }
}

// The table's cosine and sine at entry i.
pub(crate) fn cos_sin_at(table: &[i16], i: usize) -> CosSin
    requires { (length table.now ≡ 1024) × (i < 1024) }
    ensures { (result ≡ cos_sin_at table.now i) × (unsigned_abs result.cos ≤ 32768) × (unsigned_abs result.sin ≤ 32768) }
{
    let j = (i + 768) % 1024;
    let c = table[i];
    let s = table[j];
    CosSin {
        cos: c as i64,
        sin: s as i64,
    }
}
