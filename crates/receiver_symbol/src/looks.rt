// A symbol before anything is written.
ghost use Rattle.std.specs.Prelude.{◌≡◌, true, length};
ghost use Rattle.sync_corr.specs.Correlate.{both_of, ones_of};
ghost use Rattle.sync_step.specs.Ranges.{RunOk};
ghost use Rattle.sync_step.specs.Step.{step_of};
ghost use Rattle.receiver_symbol.specs.Parts.{window_by, ahead_by, AheadOk, EventsOk, DueOk};

use crate::{Ahead, heads};
use receiver::{Front, Listened, Receiver};
use sync_step::{Run, Step};

// The 24 symbols up to this one, turned back by the carrier.
fn window(a: Front, xi: i8, xq: i8, table: &[i16]) -> [i16; 48]
    requires { length table.now ≡ 1024 }
    ensures { result ≡ window_by a xi xq table.now }
{
    let n = a.nco;
    let z = carrier::ranged::rotated(table, n.phase, xi, xq);
    let mut win = a.sync.win;
    sync::ranged::shift(&mut win, z.i, z.q);
    win
}

// The slot sync with a window, whose position has this accumulator.
fn step(r: Run, win: &[i16; 48], f: &[i8; 48], s: &[i8; 48], level: u32) -> Step
    requires { (RunOk r) × (ones_of f.now ≡ true) × (ones_of s.now ≡ true) }
    ensures { (result ≡ step_of 9296 r (both_of win.now f.now s.now) level) × (EventsOk result.events) }
{
    let rows = sync_corr::plain::rows(f, s);
    let b = sync_corr::ranged::dots(win, &rows);
    sync_step::ranged::step(r, b, level)
}

pub(crate) fn look(
    r: Receiver,
    xi: i8,
    xq: i8,
    f: &[i8; 48],
    s: &[i8; 48],
    table: &[i16],
    level: u32,
) -> Ahead
    requires { AheadOk r f.now s.now table.now }
    ensures { (result ≡ ahead_by r xi xq f.now s.now table.now level) × (DueOk result.heard.due) }
{
    let a = r.front;
    let n = a.nco;
    let p = a.phase;
    let q = a.sync.run;
    let win = window(a, xi, xq, table);
    let st = step(q, &win, f, s, level);
    let es = st.events;
    let before = Listened {
        nco: carrier::plain::advanced(n),
        phase: p,
        due: None,
    };
    Ahead {
        win: win,
        step: st,
        heard: heads::listen(before, es),
    }
}
