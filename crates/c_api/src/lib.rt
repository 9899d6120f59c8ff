// The C boundary: the entries of fx and some of the stages' in the form in which C is given them, with no `requires`, since C could not be held to one. An answer is
// a struct by value (docs/DECISIONS.md, F.3). Crate c_api_c exports each under its name. Here is fx; `stages` has the stages' on numbers and slices, `arrays` those on whole arrays.
#![tactic(auto)]

pub mod arrays;
pub mod stages;

ghost use Rattle.std.specs.Prelude.{◌≡◌, ℤ, pos};
ghost use Rattle.fx.specs.Fx.{signed_angle};
ghost use Rattle.fx.specs.Answers.{round_shift_answer, div_round_answer, mag_approx_answer, sat16_answer, sat127_answer, sat32_answer, cordic_answer, cordic_scale_answer, cos_sin_trunc_answer, cos_sin_round_answer};
ghost use Rattle.c_api.specs.Api.{crossed, crossed_two, number, polar_numbers, part_numbers, phasor_numbers};

use fx::{CosSin, Parts, Polar};
use refusal::Refusal;

// Refusal 0 is an accepted call; after any other the value is 0. Here and in the next it is a number, since an enum does not cross to C.
#[repr(C)]
#[derive(Clone, Copy)]
pub struct Number {
    pub value: i64,
    pub refusal: u8,
}

#[repr(C)]
#[derive(Clone, Copy)]
pub struct Numbers {
    pub first: i64,
    pub second: i64,
    pub refusal: u8,
}

// What crosses to C as one number: a whole number of any width does, by its value.
pub(crate) trait One {
    ghost value: { Self → ℤ };

    fn one(self) -> i64
        ensures { result ≡ value self };
}

impl One for i64 {
    ghost value = { λ v. v };

    fn one(self) -> i64 {
        self
    }
}

impl One for i32 {
    ghost value = { λ v. v };

    fn one(self) -> i64 {
        i64::from(self)
    }
}

impl One for i16 {
    ghost value = { λ v. v };

    fn one(self) -> i64 {
        i64::from(self)
    }
}

impl One for i8 {
    ghost value = { λ v. v };

    fn one(self) -> i64 {
        i64::from(self)
    }
}

// What crosses to C as two numbers.
pub(crate) trait Two {
    ghost first: { Self → ℤ };

    ghost second: { Self → ℤ };

    fn first(&self) -> i64
        ensures { result ≡ first self.now };

    fn second(&self) -> i64
        ensures { result ≡ second self.now };
}

impl Two for Polar {
    ghost first = { λ p. pos p.angle };

    ghost second = { λ p. p.size };

    fn first(&self) -> i64 {
        i64::from(self.angle)
    }

    fn second(&self) -> i64 {
        self.size
    }
}

impl Two for Parts {
    ghost first = { λ p. p.re };

    ghost second = { λ p. p.im };

    fn first(&self) -> i64 {
        self.re
    }

    fn second(&self) -> i64 {
        self.im
    }
}

impl Two for CosSin {
    ghost first = { λ p. p.cos };

    ghost second = { λ p. p.sin };

    fn first(&self) -> i64 {
        self.cos
    }

    fn second(&self) -> i64 {
        self.sin
    }
}

// The functions below only pass their answers to these two, which turn them into the structs for C.
pub(crate) fn of_one<T: One>(a: Result<T, Refusal>) -> Number
    ensures { result ≡ crossed T.value a }
{
    match a {
        Ok(v) => Number {
            value: v.one(),
            refusal: 0,
        },
        Err(why) => Number {
            value: 0,
            refusal: why.number(),
        },
    }
}

pub(crate) fn of_two<T: Two + Copy>(a: Result<T, Refusal>) -> Numbers
    ensures { result ≡ crossed_two T.first T.second a }
{
    match a {
        Ok(v) => Numbers {
            first: v.first(),
            second: v.second(),
            refusal: 0,
        },
        Err(why) => Numbers {
            first: 0,
            second: 0,
            refusal: why.number(),
        },
    }
}

pub fn sv_round_shift(v: i64, s: u32) -> Number
    ensures { result ≡ number (round_shift_answer v s) }
{
    of_one(fx::round_shift(v, s))
}

pub fn sv_div_round(a: i64, b: i64) -> Number
    ensures { result ≡ number (div_round_answer a b) }
{
    of_one(fx::div_round(a, b))
}

pub fn sv_sat16(v: i64) -> Number
    ensures { result ≡ number (sat16_answer v) }
{
    of_one(fx::sat16(v))
}

pub fn sv_sat127(v: i64) -> Number
    ensures { result ≡ number (sat127_answer v) }
{
    of_one(fx::sat127(v))
}

pub fn sv_sat32(v: i64) -> Number
    ensures { result ≡ number (sat32_answer v) }
{
    of_one(fx::sat32(v))
}

pub fn sv_mag_approx(re: i64, im: i64) -> Number
    ensures { result ≡ number (mag_approx_answer re im) }
{
    of_one(fx::mag_approx(re, im))
}

pub fn sv_cordic(re: i64, im: i64) -> Numbers
    ensures { result ≡ polar_numbers (cordic_answer re im) }
{
    of_two(fx::cordic(re, im))
}

pub fn sv_cordic_scale(re: i64, im: i64) -> Numbers
    ensures { result ≡ part_numbers (cordic_scale_answer re im) }
{
    of_two(fx::cordic_scale(re, im))
}

// It refuses no angle, so it answers the plain number.
pub fn sv_signed_angle(a: u32) -> i64
    ensures { result ≡ signed_angle a }
{
    fx::signed_angle(a)
}

pub fn sv_cos_sin_trunc(table: &[i16], a: u32) -> Numbers
    ensures { result ≡ phasor_numbers (cos_sin_trunc_answer table.now a) }
{
    of_two(fx::cos_sin_trunc(table, a))
}

pub fn sv_cos_sin_round(table: &[i16], a: u32) -> Numbers
    ensures { result ≡ phasor_numbers (cos_sin_round_answer table.now a) }
{
    of_two(fx::cos_sin_round(table, a))
}
