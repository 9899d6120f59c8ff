// The stages' functions on numbers and slices.
ghost use Rattle.std.specs.Prelude.{◌≡◌};
ghost use Rattle.carrier.specs.Carrier.{started_nco};
ghost use Rattle.carrier.specs.Answers.{rotate_answer};
ghost use Rattle.phase.specs.Answers.{gain_answer};
ghost use Rattle.demap.specs.Answers.{demap_answer, demap_buffer, scale_answer};
ghost use Rattle.frame_map.specs.Map.{part_of};
ghost use Rattle.c_api.specs.Api.{number};
ghost use Rattle.c_api.specs.Stages.{rotation, placed};

use c_api::stages::Rotation;
use c_api::{Number, Numbers};

// One symbol rotated by a carrier that has this phase and step.
#[unsafe(no_mangle)]
pub extern "C" fn sv_rotate(phase: u32, freq: i32, xi: i8, xq: i8, table: &[i16]) -> Rotation
    ensures { result ≡ rotation (rotate_answer (started_nco phase freq) xi xq table.now) }
{
    c_api::stages::sv_rotate(phase, freq, xi, xq, table)
}

#[unsafe(no_mangle)]
pub extern "C" fn sv_gain_of(amp: i64) -> Number
    ensures { result ≡ number (gain_answer amp) }
{
    c_api::stages::sv_gain_of(amp)
}

#[unsafe(no_mangle)]
pub extern "C" fn sv_scale_of(n0: i64) -> Number
    ensures { result ≡ number (scale_answer n0) }
{
    c_api::stages::sv_scale_of(n0)
}

// The soft bits of a symbol into a buffer's start.
#[unsafe(no_mangle)]
pub extern "C" fn sv_demap(
    yi: i16,
    yq: i16,
    points: &[i16],
    bits: usize,
    k: i64,
    out: &mut [i8],
) -> Number
    ensures { (result ≡ number (demap_answer yi yq points.now bits k out.old)) × (out.new ≡ demap_buffer yi yq points.now bits k out.old) }
{
    c_api::stages::sv_demap(yi, yq, points, bits, k, out)
}

// What stands at place j of a slot.
#[unsafe(no_mangle)]
pub extern "C" fn sv_part(j: usize) -> Numbers
    ensures { result ≡ placed (part_of j) }
{
    c_api::stages::sv_part(j)
}
