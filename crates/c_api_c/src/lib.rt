// The C boundary: the functions of c_api as C functions, with the same clauses, since a crate is a library or a static library and not both. Here is fx; `stages` has
// the stages' on numbers and slices, `arrays` those on whole arrays.
#![tactic(auto)]

mod arrays;
mod stages;

ghost use Rattle.std.specs.Prelude.{◌≡◌};
ghost use Rattle.fx.specs.Fx.{signed_angle};
ghost use Rattle.fx.specs.Answers.{round_shift_answer, div_round_answer, mag_approx_answer, sat16_answer, sat127_answer, sat32_answer, cordic_answer, cordic_scale_answer, cos_sin_trunc_answer, cos_sin_round_answer};
ghost use Rattle.c_api.specs.Api.{number, polar_numbers, part_numbers, phasor_numbers};

use c_api::{Number, Numbers};

#[unsafe(no_mangle)]
pub extern "C" fn sv_round_shift(v: i64, s: u32) -> Number
    ensures { result ≡ number (round_shift_answer v s) }
{
    c_api::sv_round_shift(v, s)
}

#[unsafe(no_mangle)]
pub extern "C" fn sv_div_round(a: i64, b: i64) -> Number
    ensures { result ≡ number (div_round_answer a b) }
{
    c_api::sv_div_round(a, b)
}

#[unsafe(no_mangle)]
pub extern "C" fn sv_sat16(v: i64) -> Number
    ensures { result ≡ number (sat16_answer v) }
{
    c_api::sv_sat16(v)
}

#[unsafe(no_mangle)]
pub extern "C" fn sv_sat127(v: i64) -> Number
    ensures { result ≡ number (sat127_answer v) }
{
    c_api::sv_sat127(v)
}

#[unsafe(no_mangle)]
pub extern "C" fn sv_sat32(v: i64) -> Number
    ensures { result ≡ number (sat32_answer v) }
{
    c_api::sv_sat32(v)
}

#[unsafe(no_mangle)]
pub extern "C" fn sv_mag_approx(re: i64, im: i64) -> Number
    ensures { result ≡ number (mag_approx_answer re im) }
{
    c_api::sv_mag_approx(re, im)
}

#[unsafe(no_mangle)]
pub extern "C" fn sv_cordic(re: i64, im: i64) -> Numbers
    ensures { result ≡ polar_numbers (cordic_answer re im) }
{
    c_api::sv_cordic(re, im)
}

#[unsafe(no_mangle)]
pub extern "C" fn sv_cordic_scale(re: i64, im: i64) -> Numbers
    ensures { result ≡ part_numbers (cordic_scale_answer re im) }
{
    c_api::sv_cordic_scale(re, im)
}

// It refuses no angle, so it answers the plain number.
#[unsafe(no_mangle)]
pub extern "C" fn sv_signed_angle(a: u32) -> i64
    ensures { result ≡ signed_angle a }
{
    c_api::sv_signed_angle(a)
}

#[unsafe(no_mangle)]
pub extern "C" fn sv_cos_sin_trunc(table: &[i16], a: u32) -> Numbers
    ensures { result ≡ phasor_numbers (cos_sin_trunc_answer table.now a) }
{
    c_api::sv_cos_sin_trunc(table, a)
}

#[unsafe(no_mangle)]
pub extern "C" fn sv_cos_sin_round(table: &[i16], a: u32) -> Numbers
    ensures { result ≡ phasor_numbers (cos_sin_round_answer table.now a) }
{
    c_api::sv_cos_sin_round(table, a)
}
