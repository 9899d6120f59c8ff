// The carrier, after `Nco` of chain/sync.rs. The state goes in by value and comes back; the carrier table is lent.
#![tactic(auto)]

pub mod plain;
pub mod ranged;
mod refusals;

ghost use Rattle.std.specs.Prelude.{◌≡◌};
ghost use Rattle.carrier.specs.Carrier.{started_nco};
ghost use Rattle.carrier.specs.Answers.{rotate_answer, head_answer, restart_answer};

use angles::Symbol;
use refusal::{Refusal, Refused};
use sync_heads::Head;

// The angle of the last Ssync head, and the differences since the last setting: their sum and their number.
#[derive(Clone, Copy)]
pub struct Steps {
    pub last_ss: u32,
    pub sum: i64,
    pub steps: u32,
}

#[derive(Clone, Copy)]
pub struct Nco {
    pub phase: u32,
    pub freq: i32,
    pub trail: Option<Steps>,
}

// The carrier after a symbol, and the symbol turned back.
#[derive(Clone, Copy)]
pub struct Rotated {
    pub nco: Nco,
    pub symbol: Symbol,
}

// `set`: this head has set the step. No Option holds the carrier, which stands after every head.
#[derive(Clone, Copy)]
pub struct Heard {
    pub nco: Nco,
    pub set: bool,
}

// A carrier with a step, in 2^-32 turns a symbol, at phase 0.
pub fn new(freq: i32) -> Nco
    ensures { result ≡ started_nco 0 freq }
{
    plain::started(0, freq)
}

// One symbol turned back by the phase, which then advances.
pub fn rotate(n: Nco, xi: i8, xq: i8, table: &[i16]) -> Result<Rotated, Refused<Nco>>
    ensures { result ≡ rotate_answer n xi xq table.now }
{
    match refusals::rotate(n, table.len()) {
        Ok(()) => Ok(Rotated {
            nco: plain::advanced(n),
            symbol: ranged::rotated(table, n.phase, xi, xq),
        }),
        Err(why) => Err(Refused { why, state: n }),
    }
}

// A head: an Ssync head feeds the loop.
pub fn head(n: Nco, h: Head) -> Result<Heard, Refused<Nco>>
    ensures { result ≡ head_answer n h }
{
    match refusals::head(n, h) {
        Ok(()) => Ok(ranged::heard(n, h)),
        Err(why) => Err(Refused { why, state: n }),
    }
}

// The trail is dropped; phase and step are the signal's, and stay.
pub fn restart(n: Nco) -> Result<Nco, Refused<Nco>>
    ensures { result ≡ restart_answer n }
{
    if plain::in_range(n) {
        Ok(plain::started(n.phase, n.freq))
    } else {
        Err(Refused {
            why: Refusal::Arithmetic,
            state: n,
        })
    }
}
