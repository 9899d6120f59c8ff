// The symbol alignment, after `Back::push` of chain/frame.rs: a corrected symbol goes in, the one five before it comes out, equalised, with its
// own position, slot index, word and numbers. The state goes in by value and comes back.
#![tactic(auto)]

pub mod plain;
pub mod ranged;
mod refusals;

ghost use Rattle.std.specs.Prelude.{◌≡◌};
ghost use Rattle.frame.specs.Align.{new_back};
ghost use Rattle.frame.specs.Answers.{restart_answer, push_answer};

use angles::Symbol;
use eq::Equaliser;
use frame_line::{Meta, Metas};
use phase::Corrected;
use refusal::{Refusal, Refused};

#[derive(Clone, Copy)]
pub struct Back {
    pub eq: Equaliser,
    pub metas: Metas,
    pub last: Option<u64>,
}

#[derive(Clone, Copy)]
pub struct AlignedSymbol {
    pub meta: Meta,
    pub z: Symbol,
}

// The back, and what came out of it.
#[derive(Clone, Copy)]
pub struct Pushed {
    pub back: Back,
    pub out: Option<AlignedSymbol>,
}

// Identity taps, nothing waiting.
pub fn new() -> Back
    ensures { result ≡ new_back }
{
    plain::started(eq::new())
}

// Line, waiting symbols and open sums dropped; the taps stay.
pub fn restart(b: Back) -> Result<Back, Refused<Back>>
    ensures { result ≡ restart_answer b }
{
    if plain::in_range(b) {
        Ok(plain::restarted(b))
    } else {
        Err(Refused {
            why: Refusal::Arithmetic,
            state: b,
        })
    }
}

// One corrected symbol. With sums open, an aligned sync symbol trains.
pub fn push(b: Back, c: Corrected, f: [i8; 48], s: [i8; 48]) -> Result<Pushed, Refused<Back>>
    ensures { result ≡ push_answer b c f s }
{
    match refusals::push(b, c, &f, &s) {
        Ok(()) => Ok(ranged::pushed(b, c, &f, &s)),
        Err(why) => Err(Refused { why, state: b }),
    }
}
