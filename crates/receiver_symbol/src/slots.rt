// The slot that a symbol completes, and the symbol after it.
ghost use Rattle.std.specs.Prelude.{◌≡◌, ◌<◌, length, Some};
ghost use Rattle.phase.specs.Ranges.{WholeOk};
ghost use Rattle.receiver_slot.specs.Ranges.{BackOk};
ghost use Rattle.receiver_symbol.specs.Parts.{Soon, DueOk, slot_refusal, answer_by, acc_by, slot_store, soft_by};

use crate::{Ahead, after};
use frame::Back;
use phase::WholeSlot;
use receiver::{Answer, Receiver};
use refusal::{Refusal, Refused};

// The slot's last symbol would stand past 2^62, or a training finds the sums full.
fn slot_refusal(b: Back, at: u64) -> Result<(), Refusal>
    requires { BackOk b }
    ensures { result ≡ slot_refusal b at }
{
    if 4611686018427378608 < at {
        return Err(Refusal::Position);
    }
    if receiver_slot::ranged::full(b, at) {
        return Err(Refusal::Counts);
    }
    Ok(())
}

fn with_slot(
    r: Receiver,
    a: Ahead,
    w: WholeSlot,
    p: usize,
    f: &[i8; 48],
    s: &[i8; 48],
    table: &[i16],
    acc: &mut [u32],
    store: &mut [i16],
    soft: &mut [i8],
) -> Result<Answer, Refused<Receiver>>
    requires { (Soon r (length acc.old) (length store.old) (length soft.old) f.now s.now (length table.now)) × (p < 9296) × (a.heard.due ≡ Some w) × (WholeOk w) }
    ensures { (result ≡ answer_by r a f.now s.now table.now store.old) × (acc.new ≡ acc_by r a f.now s.now table.now store.old p acc.old) × (store.new ≡ slot_store r a f.now s.now table.now store.old) × (soft.new ≡ soft_by r a f.now s.now table.now store.old soft.old) }
{
    match slot_refusal(r.back, w.head.at) {
        Ok(()) => {
            let g = receiver_slot::ranged::slot(r.back, w, r.points, table, store, f, s, soft);
            Ok(after::taken(r, a, g.back, g.runs, p, acc, store))
        }
        Err(why) => Err(Refused { why, state: r }),
    }
}

// A symbol of which all is known but what its slot gives.
pub(crate) fn go_on(
    r: Receiver,
    a: Ahead,
    p: usize,
    f: &[i8; 48],
    s: &[i8; 48],
    table: &[i16],
    acc: &mut [u32],
    store: &mut [i16],
    soft: &mut [i8],
) -> Result<Answer, Refused<Receiver>>
    requires { (Soon r (length acc.old) (length store.old) (length soft.old) f.now s.now (length table.now)) × (p < 9296) × (DueOk a.heard.due) }
    ensures { (result ≡ answer_by r a f.now s.now table.now store.old) × (acc.new ≡ acc_by r a f.now s.now table.now store.old p acc.old) × (store.new ≡ slot_store r a f.now s.now table.now store.old) × (soft.new ≡ soft_by r a f.now s.now table.now store.old soft.old) }
{
    match a.heard.due {
        None => Ok(after::taken(r, a, r.back, receiver::told::no_runs(), p, acc, store)),
        Some(w) => with_slot(r, a, w, p, f, s, table, acc, store, soft),
    }
}
