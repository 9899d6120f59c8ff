// Symbols given to a receiver one by one, up to the first that tells anything or is refused; for the replay program. What a feed comes to is told in the
// same form.
#![tactic(auto)]

pub mod ranged;

ghost use Rattle.std.specs.Prelude.{◌≡◌};
ghost use Rattle.receiver_play.specs.Play.{quiet, played_of, taken_at, refused_at};

use receiver::{Answer, Receiver};
use receiver_feed::Fed;
use receiver_slot::Runs;
use refusal::{Refusal, Refused};
use sync_step::Events;

// What the last symbol told.
#[derive(Clone, Copy)]
pub struct Told {
    pub events: Events,
    pub runs: Runs,
}

// So many symbols taken, and what the last of them told, or why the next one is refused.
#[derive(Clone, Copy)]
pub struct Played {
    pub used: usize,
    pub receiver: Receiver,
    pub told: Result<Told, Refusal>,
}

// A feed's answer in the same form.
pub fn of_feed(answer: Result<Fed, Refused<Receiver>>) -> Played
    ensures { result ≡ played_of answer }
{
    match &answer {
        Ok(a) => Played {
            used: a.used,
            receiver: a.receiver,
            told: Ok(Told {
                events: a.events,
                runs: a.runs,
            }),
        },
        Err(x) => refused_at(*x, 0),
    }
}

// After i symbols.
pub(crate) fn refused_at(x: Refused<Receiver>, i: usize) -> Played
    ensures { result ≡ refused_at i x }
{
    Played {
        used: i,
        receiver: x.state,
        told: Err(x.why),
    }
}

// With it i symbols were taken.
pub(crate) fn taken_at(a: Answer, i: usize) -> Played
    ensures { result ≡ taken_at i a }
{
    Played {
        used: i,
        receiver: a.receiver,
        told: Ok(Told {
            events: a.events,
            runs: a.runs,
        }),
    }
}

pub(crate) fn still(r: Receiver, i: usize) -> Played
    ensures { result ≡ quiet i r }
{
    Played {
        used: i,
        receiver: r,
        told: Ok(Told {
            events: receiver::told::no_events(),
            runs: receiver::told::no_runs(),
        }),
    }
}
