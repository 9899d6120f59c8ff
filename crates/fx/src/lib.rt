// Fixed-point arithmetic, after chain/fx.rs. Each function here takes any arguments and answers the value or document 01's refusal
// number. `ranged` has the plain values, for crates that prove the range themselves.
#![tactic(auto)]

pub mod plain;
pub mod ranged;
mod sizes;
mod turns;

ghost use Rattle.std.specs.Prelude.{◌≡◌};
ghost use Rattle.fx.specs.Fx.{signed_angle};
ghost use Rattle.fx.specs.Answers.{round_shift_answer, div_round_answer, mag_approx_answer, sat16_answer, sat127_answer, sat32_answer, cordic_answer, cordic_scale_answer, cos_sin_trunc_answer, cos_sin_round_answer};

use refusal::Refusal;

#[derive(Clone, Copy)]
pub struct Polar {
    pub angle: u32,
    pub size: i64,
}

// A point on its way through the CORDIC: its parts, and the angle turned so far.
#[derive(Clone, Copy)]
pub struct Turn {
    pub x: i64,
    pub y: i64,
    pub z: u32,
}

// This and the next are not one generic pair: their fields' names say what each number is, and the contracts read by them.
#[derive(Clone, Copy)]
pub struct Parts {
    pub re: i64,
    pub im: i64,
}

#[derive(Clone, Copy)]
pub struct CosSin {
    pub cos: i64,
    pub sin: i64,
}

// v / 2^s, halves rounded up.
pub fn round_shift(v: i64, s: u32) -> Result<i64, Refusal>
    ensures { result ≡ round_shift_answer v s }
{
    if 60 < s {
        Err(Refusal::Arithmetic)
    } else if sizes::wide(v) {
        Err(Refusal::Arithmetic)
    } else {
        Ok(ranged::round_shift(v, s))
    }
}

// a / b, halves rounded up.
pub fn div_round(a: i64, b: i64) -> Result<i64, Refusal>
    ensures { result ≡ div_round_answer a b }
{
    if b < 1 {
        Err(Refusal::Arithmetic)
    } else if sizes::wide2(a, b) {
        Err(Refusal::Arithmetic)
    } else {
        Ok(ranged::div_round(a, b))
    }
}

// v saturated to 16 bits.
pub fn sat16(v: i64) -> Result<i16, Refusal>
    ensures { result ≡ sat16_answer v }
{
    if sizes::wide(v) {
        Err(Refusal::Arithmetic)
    } else {
        Ok(plain::sat16(v))
    }
}

// v saturated to a soft bit.
pub fn sat127(v: i64) -> Result<i8, Refusal>
    ensures { result ≡ sat127_answer v }
{
    if sizes::wide(v) {
        Err(Refusal::Arithmetic)
    } else {
        Ok(plain::sat127(v))
    }
}

// v saturated to 32 bits.
pub fn sat32(v: i64) -> Result<i32, Refusal>
    ensures { result ≡ sat32_answer v }
{
    if sizes::wide(v) {
        Err(Refusal::Arithmetic)
    } else {
        Ok(plain::sat32(v))
    }
}

// The size of re + j im, never under the larger part's.
pub fn mag_approx(re: i64, im: i64) -> Result<i64, Refusal>
    ensures { result ≡ mag_approx_answer re im }
{
    if sizes::wide2(re, im) {
        Err(Refusal::Arithmetic)
    } else {
        Ok(ranged::mag_approx(re, im))
    }
}

// The angle and the size of re + j im.
pub fn cordic(re: i64, im: i64) -> Result<Polar, Refusal>
    ensures { result ≡ cordic_answer re im }
{
    if sizes::outside2(re, im) {
        Err(Refusal::Arithmetic)
    } else {
        Ok(ranged::cordic(re, im))
    }
}

// re and im shifted into the CORDIC's range; good for the angle alone.
pub fn cordic_scale(re: i64, im: i64) -> Result<Parts, Refusal>
    ensures { result ≡ cordic_scale_answer re im }
{
    if sizes::wide2(re, im) {
        Err(Refusal::Arithmetic)
    } else {
        Ok(turns::scale(re, im))
    }
}

// An angle as a signed number of 2^-32 turns.
pub fn signed_angle(a: u32) -> i64
    ensures { result ≡ signed_angle a }
{
    a.cast_signed() as i64
}

// Cosine and sine at the table's entry at or before an angle. Not one function over the index with the next: the nearest entry's index is worked out
// in `ranged::cos_sin_round`, which carrier and phase call, and would then be worked out in two places.
pub fn cos_sin_trunc(table: &[i16], a: u32) -> Result<CosSin, Refusal>
    ensures { result ≡ cos_sin_trunc_answer table.now a }
{
    if table.len() == 1024 {
        Ok(turns::cos_sin_at(table, (a / 4194304) as usize))
    } else {
        Err(Refusal::Table)
    }
}

// Cosine and sine at the entry nearest to an angle.
pub fn cos_sin_round(table: &[i16], a: u32) -> Result<CosSin, Refusal>
    ensures { result ≡ cos_sin_round_answer table.now a }
{
    if table.len() == 1024 {
        Ok(ranged::cos_sin_round(table, a))
    } else {
        Err(Refusal::Table)
    }
}
