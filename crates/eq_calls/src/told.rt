// Answers as 24 numbers, zeros behind them. A negative number is 2^64 more.
ghost use Rattle.std.specs.Prelude.{◌≡◌, ◌<◌};
ghost use Rattle.eq_calls.specs.Told.{from_shown, sums_shown, told_of, bits_at, tap_at, taps_told, solved_told};

use crate::kept::Kept;
use refusal::Refusal;
use sums::Sums;
use wire::Field;

// The frame of taps: whether there is one, and its number. This and frame_wire's `LastShown` are numbers of an answer's bytes, and no plainer as one
// type: what a number is, its name tells.
#[derive(Clone, Copy)]
pub struct From {
    pub known: u64,
    pub frame: u64,
}

// Sums: frame, count, and digests of the entries.
#[derive(Clone, Copy)]
pub struct Digests {
    pub frame: u64,
    pub count: u64,
    pub upper: u64,
    pub right: u64,
}

pub fn from_shown(f: Option<u32>) -> From
    ensures { result ≡ from_shown f }
{
    match f {
        None => From { known: 0, frame: 0 },
        Some(n) => From {
            known: 1,
            frame: n as u64,
        },
    }
}

pub fn sums_shown(s: Sums) -> Digests
    ensures { result ≡ sums_shown s }
{
    Digests {
        frame: s.frame as u64,
        count: s.count as u64,
        upper: digest::of(&s.r),
        right: digest::of(&s.p),
    }
}

// The refusal's number, as the programs write it, three numbers of the answer, and all that is kept.
pub(crate) fn told(k: Kept, refusal: u8, x: u64, y: u64, z: u64) -> [u64; 24]
    ensures { result ≡ told_of k refusal x y z }
{
    let e = k.eq;
    let from = from_shown(e.from);
    let open = sums_shown(e.sums);
    let solver = sums_shown(k.sums);
    [
        refusal as u64,
        x,
        y,
        z,
        digest::of(&e.line),
        e.filled as u64,
        digest::of(&e.taps),
        from.known,
        from.frame,
        fields::flag(e.opened),
        open.frame,
        open.count,
        open.upper,
        open.right,
        solver.frame,
        solver.count,
        solver.upper,
        solver.right,
        0,
        0,
        0,
        0,
        0,
        0,
    ]
}

// ---- the taps of a solving
fn bits_at(t: &[i16; 22], k: usize) -> u64
    requires { k < 22 }
    ensures { result ≡ bits_at t.now k }
{
    t[k].to_bits()
}

fn tap_at(t: &[i16; 22], k: usize) -> u64
    ensures { result ≡ tap_at t.now k }
{
    if (1 <= k) & (k < 23) {
        bits_at(t, k - 1)
    } else {
        0
    }
}

fn taps_told(t: &[i16; 22]) -> [u64; 24]
    ensures { result ≡ taps_told t.now }
{
    std::array::from_fn(
        |k: usize| -> u64
            ensures { result ≡ tap_at t.entry.now k }
        { tap_at(t, k) },
    )
}

// A refusal's number, or 0 and the taps.
pub(crate) fn solved(answer: Result<[i16; 22], Refusal>) -> [u64; 24]
    ensures { result ≡ solved_told answer }
{
    match answer {
        Ok(taps) => taps_told(&taps),
        Err(why) => fields::four(why.number(), 0, 0, 0),
    }
}
