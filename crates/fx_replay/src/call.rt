// One call: its bytes, its answer, and that answer's bytes.
ghost use Rattle.std.specs.Prelude.{◌≡◌, ◌+◌, ◌≤◌, length, drop};
ghost use Rattle.std.proofs.Math.Seq.{paste};
ghost use Rattle.fx_replay.specs.Replay.{alone, answer_of, answer_bytes};

use c_api::{Number, Numbers};
use wire::Field;

// A single value is x; y is 0.
fn single(n: Number) -> Numbers
    ensures { result ≡ alone n }
{
    Numbers {
        first: n.value,
        second: 0,
        refusal: n.refusal,
    }
}

// The answer of function op, which stands as a number in the call's bytes: an enum of the functions would be one more list of these numbers. 255 is
// no refusal of document 01. The low half of a field is its u32.
fn answer(table: &[i16], op: u64, a: u64, b: u64) -> Numbers
    ensures { result ≡ answer_of table.now op a b }
{
    let x = i64::of_bits(a);
    let y = i64::of_bits(b);
    match op {
        0 => single(c_api::sv_round_shift(x, u32::of_bits(b))),
        1 => single(c_api::sv_sat16(x)),
        2 => single(c_api::sv_sat127(x)),
        3 => single(c_api::sv_sat32(x)),
        4 => single(c_api::sv_mag_approx(x, y)),
        5 => c_api::sv_cordic(x, y),
        6 => c_api::sv_cordic_scale(x, y),
        7 => Numbers {
            first: c_api::sv_signed_angle(u32::of_bits(a)),
            second: 0,
            refusal: 0,
        },
        8 => c_api::sv_cos_sin_trunc(table, u32::of_bits(a)),
        9 => c_api::sv_cos_sin_round(table, u32::of_bits(a)),
        10 => single(c_api::sv_div_round(x, y)),
        _ => Numbers {
            first: 0,
            second: 0,
            refusal: 255,
        },
    }
}

// The bytes of the answer to the call at the start of s.
fn answer_bytes(table: &[i16], s: &[u8]) -> [u8; 24]
    requires { 24 ≤ length s.now }
    ensures { result ≡ answer_bytes table.now s.now }
{
    let a = answer(
        table,
        wire::ranged::word(s, 0),
        wire::ranged::word(s, 8),
        wire::ranged::word(s, 16),
    );
    let x = a.first;
    let y = a.second;
    wire::three(a.refusal as u64, x.to_bits(), y.to_bits())
}

// The call at `at`, replaced by its answer: both have 24 bytes.
pub(crate) fn replace(table: &[i16], buf: &mut [u8], at: usize)
    requires { at + 24 ≤ length buf.old }
    ensures { buf.new ≡ paste buf.old at (answer_bytes table.now (drop at buf.old)) 24 }
{
    let answer = answer_bytes(table, &buf[at..]);
    wire::ranged::put(&answer, buf, at);
}
