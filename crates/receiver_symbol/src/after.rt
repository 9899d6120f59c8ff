// What a symbol that is taken leaves, once its slot has gone to the alignment.
ghost use Rattle.std.specs.Prelude.{◌≡◌, ◌+◌, ◌<◌, ◌^◌, length};
ghost use Rattle.sync.specs.Sync.{stored_of};
ghost use Rattle.receiver.specs.Symbol.{next_of};
ghost use Rattle.receiver_symbol.specs.Parts.{left_by, phase_by, stored_by, after_by, store_by, taken_by};

use crate::{Ahead, heads};
use frame::Back;
use phase::Held;
use receiver::{Answer, Front, Receiver};
use receiver_slot::Runs;
use sync::SlotSync;

fn left(r: Receiver, a: Ahead, b: Back, p: Option<Held>) -> Receiver
    ensures { result ≡ left_by r a b p }
{
    let st = a.step;
    let h = a.heard;
    let nco = h.nco;
    let k = st.stores;
    let run = st.run;
    let win = a.win;
    let points = r.points;
    Receiver {
        front: Front {
            nco: nco,
            sync: SlotSync {
                win: sync::plain::kept_window(k, win),
                run: run,
            },
            phase: p,
        },
        back: b,
        points: points,
    }
}

// The symbol 23 back goes to the slot phase, once 24 have come.
fn phased(t: u64, p: Option<Held>, i: i16, q: i16, store: &mut [i16]) -> Option<Held>
    requires { length store.old ≡ 18592 }
    ensures { (result ≡ phase_by t p) × (store.new ≡ stored_by t p i q store.old) }
{
    if 23 <= t {
        phase::ranged::pushed(p, i, q, store)
    } else {
        p
    }
}

// A loss starts anew at the next symbol's position; its phase holds no slot, so nothing is stored.
fn after(r: Receiver, a: Ahead, b: Back, store: &mut [i16]) -> Receiver
    requires { (next_of r < 2 ^ 62) × (length store.old ≡ 18592) }
    ensures { (result ≡ after_by r a b) × (store.new ≡ store_by r a store.old) }
{
    let st = a.step;
    let es = st.events;
    let y = r.front.sync.run;
    let h = a.heard;
    let p = h.phase;
    if heads::loses(es) {
        receiver::plain::started(y.base + y.t + 1, receiver::plain::kept_of(left(r, a, b, p)))
    } else {
        let win = a.win;
        left(r, a, b, phased(y.t, p, win[0], win[1], store))
    }
}

// All is known; now the stores are written. p is the position of the symbol's window.
pub(crate) fn taken(
    r: Receiver,
    a: Ahead,
    b: Back,
    runs: Runs,
    p: usize,
    acc: &mut [u32],
    store: &mut [i16],
) -> Answer
    requires { (next_of r < 2 ^ 62) × (p < length acc.old) × (length store.old ≡ 18592) }
    ensures { (result ≡ taken_by r a b runs) × (acc.new ≡ stored_of a.step.stores p acc.old) × (store.new ≡ store_by r a store.old) }
{
    let st = a.step;
    let k = st.stores;
    let es = st.events;
    sync::ranged::store(k, p, acc);
    Answer {
        receiver: after(r, a, b, store),
        events: es,
        runs,
    }
}
