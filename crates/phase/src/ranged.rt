// For the entries and the receiver, which prove the ranges.
// The ranges stand in each contract and not in a type with an invariant: a state is handed in by anyone and may be out of range, the entries refuse
// such a one and hand it back, and such a type could not hold it.
// Table and store are lent as slices of any length, and the entries refuse each but 1,024 and 18,592; so their lengths stand in the contracts.
ghost use Rattle.std.specs.Prelude.{◌≡◌, ◌+◌, ◌≤◌, ◌<◌, ◌^◌, nat_abs, length};
ghost use Rattle.phase.specs.Phase.{gain_of, per_symbol, whole_of, due_of, pushed_of, stored_of, phase_at, gain_at, scaled_of, corrected_of};
ghost use Rattle.phase.specs.Ranges.{HeadOk, PhaseOk, WholeOk};

use crate::{Corrected, Held, WholeSlot};
use angles::Symbol;
use sync_heads::Head;

pub(crate) fn gain_of(amp: i64) -> i64
    requires { nat_abs amp ≤ 2 ^ 60 }
    ensures { (result ≡ gain_of amp) × (nat_abs result ≤ 71179699) }
{
    if amp < 64 {
        fx::ranged::div_round(4555500750, 64)
    } else {
        fx::ranged::div_round(4555500750, amp)
    }
}

// A difference over a slot as a step for each symbol, with 16 fraction bits.
fn per_symbol(d: i64) -> i64
    requires { nat_abs d ≤ 2 ^ 31 }
    ensures { result ≡ per_symbol d }
{
    fx::ranged::round_shift(d * 14784741, 21)
}

fn whole(a: Head, b: Head) -> WholeSlot
    requires { (HeadOk a) × (HeadOk b) }
    ensures { result ≡ whole_of a b }
{
    let ga = gain_of(a.amp);
    let gb = gain_of(b.amp);
    WholeSlot {
        head: a,
        next: b,
        delta: per_symbol(angles::plain::turn_from(a.theta, b.theta)),
        gain: ga,
        gamma: per_symbol(gb - ga),
    }
}

// The slot that the next head completes, if all its symbols came.
pub fn due(s: Option<Held>, h: Head) -> Option<WholeSlot>
    requires { (PhaseOk s) × (HeadOk h) }
    ensures { result ≡ due_of s h }
{
    match s {
        None => None,
        Some(x) => {
            if x.count == 9296 {
                Some(whole(x.head, h))
            } else {
                None
            }
        }
    }
}

// One symbol into the store, and counted; past the 9,296th, or with no slot held, it is ignored.
pub fn pushed(s: Option<Held>, i: i16, q: i16, store: &mut [i16]) -> Option<Held>
    requires { length store.old ≡ 18592 }
    ensures { (result ≡ pushed_of s) × (store.new ≡ stored_of s i q store.old) }
{
    match s {
        None => None,
        Some(x) => {
            if x.count < 9296 {
                let k = 2 * (x.count as usize);
                store[k] = i;
                store[k + 1] = q;
                Some(Held {
                    count: x.count + 1,
                    ..x
                })
            } else {
                Some(x)
            }
        }
    }
}

// Phase and gain at symbol j. The one wraps around and the other has a bound, so that one function for both would be no plainer.
fn phase_at(theta: u32, delta: i64, j: usize) -> u32
    requires { (nat_abs delta ≤ 2 ^ 34) × (j < 9296) }
    ensures { result ≡ phase_at theta delta j }
{
    angles::ranged::turn_on(theta, fx::ranged::round_shift(delta * (j as i64), 16))
}

fn gain_at(gain: i64, gamma: i64, j: usize) -> i64
    requires { (nat_abs gain ≤ 2 ^ 27) × (nat_abs gamma ≤ 2 ^ 29) × (j < 9296) }
    ensures { (result ≡ gain_at gain gamma j) × (nat_abs result ≤ 2 ^ 28) }
{
    gain + fx::ranged::round_shift(gamma * (j as i64), 16)
}

// A symbol turned back by an angle and multiplied by a gain.
fn scaled(table: &[i16], phi: u32, gain: i64, r: Symbol) -> Symbol
    requires { (length table.now ≡ 1024) × (nat_abs gain ≤ 2 ^ 28) }
    ensures { result ≡ scaled_of table.now phi gain r.i r.q }
{
    let p = fx::ranged::cos_sin_round(table, phi);
    let u = angles::ranged::turn_back(p, r.i as i64, r.q as i64, 15);
    Symbol {
        i: fx::plain::sat16(fx::ranged::round_shift(u.re * gain, 17)),
        q: fx::plain::sat16(fx::ranged::round_shift(u.im * gain, 17)),
    }
}

pub fn corrected(s: WholeSlot, j: usize, table: &[i16], store: &[i16]) -> Corrected
    requires { (WholeOk s) × (j < 9296) × (s.head.at + j < 2 ^ 62) × (length table.now ≡ 1024) × (length store.now ≡ 18592) }
    ensures { result ≡ corrected_of s table.now store.now j }
{
    let h = s.head;
    let phi = phase_at(h.theta, s.delta, j);
    let gain = gain_at(s.gain, s.gamma, j);
    let r = Symbol {
        i: store[2 * j],
        q: store[2 * j + 1],
    };
    Corrected {
        at: h.at + (j as u64),
        word: h.word,
        slot: h.slot,
        j: j as u16,
        r,
        phi,
        gain,
        y: scaled(table, phi, gain, r),
    }
}
