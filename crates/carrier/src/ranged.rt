// For the entries and the receiver, which prove the ranges.
// The ranges stand in each contract and not in a type with an invariant: a state is handed in by anyone and may be out of range, the entries refuse
// such a one and hand it back, and such a type could not hold it.
// The table is lent as a slice of any length, and the entries refuse each but 1,024; so its length stands in the contracts and not in a type.
ghost use Rattle.std.specs.Prelude.{◌≡◌, ◌+◌, ◌≤◌, ◌^◌, nat_abs, length, Some};
ghost use Rattle.carrier.specs.Carrier.{rotated_of, tuned, since_head, ssync_heard, trail_heard, heard_of};
ghost use Rattle.carrier.specs.Ranges.{StepsOk, NcoOk};

use crate::{Heard, Nco, Steps};
use angles::Symbol;
use sync_heads::{Head, Word};

// The symbol turned back by the phase: at most 4,096 in each part, and 4,097 in both together.
pub fn rotated(table: &[i16], phase: u32, xi: i8, xq: i8) -> Symbol
    requires { length table.now ≡ 1024 }
    ensures { (result ≡ rotated_of table.now phase xi xq) × (nat_abs result.i ≤ 4096) × (nat_abs result.q ≤ 4096) × (nat_abs result.i + nat_abs result.q ≤ 4097) }
{
    let p = fx::ranged::cos_sin_round(table, phase);
    let r = angles::ranged::turn_back(p, xi as i64, xq as i64, 11);
    Symbol {
        i: r.re as i16,
        q: r.im as i16,
    }
}

// The step that 60 differences of this sum set.
fn tune(freq: i32, sum: i64) -> i32
    requires { nat_abs sum ≤ 2 ^ 37 }
    ensures { result ≡ tuned freq sum }
{
    let f = freq as i64 + fx::ranged::round_shift(sum * 246412, 39);
    f.clamp(-524287, 524287) as i32
}

// The trail that an Ssync head of angle theta begins, which no difference follows yet.
fn since(theta: u32) -> Option<Steps>
    ensures { result ≡ Some (since_head theta) }
{
    Some(Steps {
        last_ss: theta,
        sum: 0,
        steps: 0,
    })
}

// One more difference, and the setting if it is the sixtieth.
fn another(n: Nco, s: Steps, theta: u32) -> Heard
    requires { StepsOk s }
    ensures { result ≡ ssync_heard n s theta }
{
    let sum = s.sum + angles::plain::turn_from(s.last_ss, theta);
    let steps = s.steps + 1;
    if steps < 60 {
        let trail = Some(Steps {
            last_ss: theta,
            sum,
            steps,
        });
        Heard {
            nco: Nco { trail, ..n },
            set: false,
        }
    } else {
        Heard {
            nco: Nco {
                freq: tune(n.freq, sum),
                trail: since(theta),
                ..n
            },
            set: true,
        }
    }
}

// An Ssync head.
fn ssync(n: Nco, theta: u32) -> Heard
    requires { NcoOk n }
    ensures { result ≡ trail_heard n n.trail theta }
{
    match n.trail {
        None => Heard {
            nco: Nco {
                trail: since(theta),
                ..n
            },
            set: false,
        },
        Some(s) => another(n, s, theta),
    }
}

pub fn heard(n: Nco, h: Head) -> Heard
    requires { NcoOk n }
    ensures { result ≡ heard_of n h }
{
    match h.word {
        Word::Ssync => ssync(n, h.theta),
        Word::Fsync | Word::NotFsync => Heard { nco: n, set: false },
    }
}
