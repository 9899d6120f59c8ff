// A symbol of the receiver. All is known before anything is written.
#![tactic(auto)]

mod after;
mod heads;
mod looks;
pub mod ranged;
pub mod refusals;
mod slots;

ghost use Rattle.std.specs.Prelude.{◌≡◌};
ghost use Rattle.receiver.specs.Answers.{symbol_answer, symbol_lent};

use receiver::{Answer, Listened, Receiver};
use refusal::Refused;
use sync_step::Step;

// What a symbol comes to before anything is written: its window, the step of the slot sync, and what carrier and slot phase hear.
#[derive(Clone, Copy)]
pub struct Ahead {
    pub win: [i16; 48],
    pub step: Step,
    pub heard: Listened,
}

// One symbol, with the words and the carrier table.
pub fn symbol(
    r: Receiver,
    xi: i8,
    xq: i8,
    f: [i8; 48],
    s: [i8; 48],
    table: &[i16],
    acc: &mut [u32],
    store: &mut [i16],
    soft: &mut [i8],
) -> Result<Answer, Refused<Receiver>>
    ensures { (result ≡ symbol_answer r (record { xi = xi; xq = xq; f = f; s = s; table = table.now }) (record { acc = acc.old; store = store.old; soft = soft.old })) × (acc.new ≡ (symbol_lent r (record { xi = xi; xq = xq; f = f; s = s; table = table.now }) (record { acc = acc.old; store = store.old; soft = soft.old })).acc) × (store.new ≡ (symbol_lent r (record { xi = xi; xq = xq; f = f; s = s; table = table.now }) (record { acc = acc.old; store = store.old; soft = soft.old })).store) × (soft.new ≡ (symbol_lent r (record { xi = xi; xq = xq; f = f; s = s; table = table.now }) (record { acc = acc.old; store = store.old; soft = soft.old })).soft) }
{
    match refusals::soon(r, acc.len(), store.len(), soft.len(), &f, &s, table.len()) {
        Ok(()) => ranged::known(r, xi, xq, &f, &s, table, acc, store, soft),
        Err(why) => Err(Refused { why, state: r }),
    }
}
