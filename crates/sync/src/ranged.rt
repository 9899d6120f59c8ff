// For the receiver and the block, which prove the ranges.
// The ranges stand in each contract and not in a type with an invariant: a state is handed in by anyone and may be out of range, the entries refuse
// such a one and hand it back, and such a type could not hold it.
ghost use Rattle.std.specs.Prelude.{◌≡◌, true, ◌+◌, ◌<◌, length};
ghost use Rattle.sync_corr.specs.Correlate.{ones_of};
ghost use Rattle.sync_step.specs.Ranges.{RunOk};
ghost use Rattle.sync.specs.Sync.{window_after, stored_of};
ghost use Rattle.sync.specs.Answers.{accepted_push, accepted_acc};

use crate::{Pushed, SlotSync};
use sync_step::Stores;

// The window with one more symbol; the oldest goes.
pub fn shift(win: &mut [i16; 48], i: i16, q: i16)
    requires { length win.old ≡ 48 }
    ensures { win.new ≡ window_after win.old i q }
{
    for k in 0..46 {
        win[k] = win[k + 2];
    }
    win[46] = i;
    win[47] = q;
}

// A symbol that is taken: all is known before the accumulator is written.
pub(crate) fn accepted(
    s: SlotSync,
    i: i16,
    q: i16,
    f: &[i8; 48],
    w: &[i8; 48],
    acc: &mut [u32],
) -> Pushed
    requires { (RunOk s.run) × (ones_of f.now ≡ true) × (ones_of w.now ≡ true) × (length acc.old ≡ 9296) }
    ensures { (result ≡ accepted_push s i q f.now w.now acc.old) × (acc.new ≡ accepted_acc s i q f.now w.now acc.old) }
{
    let r = s.run;
    let mut win = s.win;
    shift(&mut win, i, q);
    let rows = sync_corr::plain::rows(f, w);
    let b = sync_corr::ranged::dots(&win, &rows);
    let p = sync_step::plain::place(r.t);
    let x = sync_step::ranged::step(r, b, acc[p]);
    store(x.stores, p, acc);
    Pushed {
        sync: SlotSync {
            win: crate::plain::kept_window(x.stores, win),
            run: x.run,
        },
        last: x.last,
        events: x.events,
    }
}

// What a step stores.
pub fn store(x: Stores, p: usize, acc: &mut [u32])
    requires { p < length acc.old }
    ensures { acc.new ≡ stored_of x p acc.old }
{
    match x {
        Stores::Nothing => {}
        Stores::One(a) => {
            acc[p] = a;
        }
        Stores::Zeros => {
            crate::plain::clear(acc);
        }
    }
}
