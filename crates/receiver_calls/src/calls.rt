// What each call that takes no store answers and leaves. Its numbers are those of p; number 0 has told which call it is.
ghost use Rattle.std.specs.Prelude.{◌≡◌};
ghost use Rattle.receiver_calls.specs.Calls.{eq_call, state_call, words_call, points_call, taps_call, open_call, ended_turn, end_call, event_at, event_call};

use crate::kept::{Kept, Turn};
use crate::{answered, given, kept, plain, told};
use eq_calls::kept::Kept as EqKept;
use frame::Back;
use receiver::Receiver;
use sums::Sums;
use sync_step::{Event, Events};
use wire::Field;

// A call of the receiver's own equaliser.
pub(crate) fn on_eq(op: u64, k: Kept, p: &[u64; 24]) -> Turn
    ensures { result ≡ eq_call op k p.now }
{
    let r = k.receiver;
    let t = eq_calls::turn(
        op,
        EqKept {
            eq: r.back.eq,
            sums: k.sums,
        },
        p,
    );
    let w = Receiver {
        back: Back {
            eq: t.kept.eq,
            ..r.back
        },
        ..r
    };
    kept::turned(kept::with_receiver(k, w, t.kept.sums), t.told)
}

// A part of the receiver told, or replaced.
pub(crate) fn on_state(n: u64, k: Kept, p: &[u64; 24]) -> Turn
    ensures { result ≡ state_call n k p.now }
{
    let t = receiver_state::turn(n, k.receiver, p);
    kept::turned(kept::with_receiver(k, t.receiver, k.sums), t.told)
}

// Other words, six numbers each.
pub(crate) fn words(k: Kept, p: &[u64; 24]) -> Turn
    ensures { result ≡ words_call k p.now }
{
    let bytes = wire::packed(p);
    let f = fields::ranged::ones_at(&bytes, 8);
    let s = fields::ranged::ones_at(&bytes, 56);
    plain(kept::with_words(k, f, s), 0)
}

// Bits, scale, how many numbers of points, and these.
pub(crate) fn points(k: Kept, p: &[u64; 24]) -> Turn
    ensures { result ≡ points_call k p.now }
{
    let bytes = wire::packed(p);
    let all = given::points(&bytes);
    let n = fields::least(p[3], 80);
    let scale = i64::of_bits(p[2]);
    answered(
        k,
        receiver::load_points(k.receiver, u8::of_bits(p[1]), &all[..n], scale),
    )
}

pub(crate) fn taps(k: Kept, p: &[u64; 24]) -> Turn
    ensures { result ≡ taps_call k p.now }
{
    let t = fields::parts(p);
    answered(k, receiver::load_taps(k.receiver, t, u32::of_bits(p[1])))
}

pub(crate) fn open(k: Kept, p: &[u64; 24]) -> Turn
    ensures { result ≡ open_call k p.now }
{
    answered(k, receiver::open_sums(k.receiver, u32::of_bits(p[1])))
}

// Zeros are kept and told where no sums ended; the refusal is the number of an answer's bytes.
fn ended(k: Kept, r: Receiver, sums: Option<Sums>, refusal: u8) -> Turn
    ensures { result ≡ ended_turn k r sums refusal }
{
    match sums {
        None => {
            let none = sums::new(0);
            kept::turned(
                kept::with_receiver(k, r, none),
                told::ended(refusal, false, none),
            )
        }
        Some(s) => kept::turned(kept::with_receiver(k, r, s), told::ended(refusal, true, s)),
    }
}

pub(crate) fn end(k: Kept) -> Turn
    ensures { result ≡ end_call k }
{
    match receiver::end_sums(k.receiver) {
        Ok(e) => ended(k, e.receiver, e.sums, 0),
        Err(x) => ended(k, x.state, None, x.why.number()),
    }
}

// Which event, is a number of a call.
fn event_at(e: Events, n: u64) -> Event
    ensures { result ≡ event_at e n }
{
    match n {
        0 => e.first,
        1 => e.second,
        _ => e.third,
    }
}

// An event of the last play.
pub(crate) fn event(k: Kept, p: &[u64; 24]) -> Turn
    ensures { result ≡ event_call k p.now }
{
    kept::turned(k, told::event(event_at(k.events, p[1])))
}
