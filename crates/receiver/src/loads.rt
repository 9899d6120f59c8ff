// What loads and training calls leave.
ghost use Rattle.std.specs.Prelude.{◌≡◌, ◌++◌, ◌-◌, ◌≤◌, ◌^◌, pos, nat_abs, length, replicate};
ghost use Rattle.receiver.specs.Answers.{loaded_points, with_points, with_eq, eq_answer, ended_of};

use crate::{Ended, Receiver, plain};
use eq::Equaliser;
use frame::Back;
use receiver_slot::Points;
use refusal::Refused;

// The points with zeros behind them.
fn filled(points: &[i16]) -> [i16; 64]
    requires { length points.now ≤ 64 }
    ensures { result ≡ points.now ++ replicate (64 - length points.now) (pos 0) }
{
    let mut all = [0i16; 64];
    for k in 0..points.len() {
        all[k] = points[k];
    }
    all
}

pub(crate) fn loaded_points(bits: u8, points: &[i16], k: i64) -> Points
    requires { (length points.now ≤ 64) × (k ≡ pos (nat_abs k)) × (nat_abs k ≤ 2 ^ 24) }
    ensures { result ≡ loaded_points bits points.now k }
{
    Points {
        bits,
        points: filled(points),
        k: k as u32,
    }
}

pub(crate) fn with_points(r: Receiver, points: Points) -> Receiver
    ensures { result ≡ with_points r points }
{
    Receiver { points, ..r }
}

pub(crate) fn with_eq(r: Receiver, eq: Equaliser) -> Receiver
    ensures { result ≡ with_eq r eq }
{
    Receiver {
        back: Back { eq, ..r.back },
        ..r
    }
}

// The receiver with this equaliser, if its numbers are in range.
pub(crate) fn eq_answer(r: Receiver, e: Equaliser) -> Result<Receiver, Refused<Receiver>>
    ensures { result ≡ eq_answer r e }
{
    match plain::range_refusal(r) {
        Ok(()) => Ok(with_eq(r, e)),
        Err(why) => Err(Refused { why, state: r }),
    }
}

// The receiver without sums, and those that it had.
pub(crate) fn ended(r: Receiver) -> Ended
    ensures { result ≡ ended_of r }
{
    let e = r.back.eq;
    if e.opened {
        Ended {
            receiver: with_eq(r, eq::plain::with_sums(e, false, sums::new(0))),
            sums: Some(e.sums),
        }
    } else {
        Ended {
            receiver: r,
            sums: None,
        }
    }
}
