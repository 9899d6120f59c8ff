// Packed calls of a receiver that take no store, with their answers, for the replay program.
#![tactic(auto)]

mod calls;
mod given;
pub mod kept;
mod told;

ghost use Rattle.std.specs.Prelude.{◌≡◌};
ghost use Rattle.receiver_calls.specs.Calls.{plain, answered_turn, played_turn};
ghost use Rattle.receiver_calls.specs.Turns.{plain_of, turn_of};

use kept::{Kept, Turn};
use receiver::Receiver;
use receiver_play::Played;
use refusal::Refused;

// A refusal, or 0, as the number of an answer's bytes, alone.
pub fn plain(k: Kept, refusal: u8) -> Turn
    ensures { result ≡ plain k refusal }
{
    kept::turned(k, fields::four(refusal, 0, 0, 0))
}

pub fn answered(k: Kept, answer: Result<Receiver, Refused<Receiver>>) -> Turn
    ensures { result ≡ answered_turn k answer }
{
    match answer {
        Ok(r) => plain(kept::with_receiver(k, r, k.sums), 0),
        Err(x) => plain(kept::with_receiver(k, x.state, k.sums), x.why.number()),
    }
}

// What a play leaves and tells: no events where it was refused.
pub fn played(k: Kept, a: Played) -> Turn
    ensures { result ≡ played_turn k a }
{
    match a.told {
        Ok(t) => kept::turned(
            kept::with_played(k, a.receiver, t.events),
            told::played(0, a.used, t.events, t.runs),
        ),
        Err(why) => {
            let e = receiver::told::no_events();
            kept::turned(
                kept::with_played(k, a.receiver, e),
                told::played(why.number(), a.used, e, receiver::told::no_runs()),
            )
        }
    }
}

// A call that takes no store, by its number in the bytes of calls; 255 is no refusal of document 01.
fn free(n: u64, k: Kept, p: &[u64; 24]) -> Turn
    ensures { result ≡ plain_of n p.now k }
{
    match n {
        0 => calls::words(k, p),
        1 => calls::points(k, p),
        2 => calls::taps(k, p),
        3 => calls::open(k, p),
        4 => calls::end(k),
        5 => calls::event(k, p),
        _ => plain(k, 255),
    }
}

pub fn turn(op: u64, k: Kept, p: &[u64; 24]) -> Turn
    ensures { result ≡ turn_of op p.now k }
{
    if op < 16 {
        calls::on_eq(op, k, p)
    } else if op < 32 {
        free(op - 16, k, p)
    } else {
        calls::on_state(op - 32, k, p)
    }
}
