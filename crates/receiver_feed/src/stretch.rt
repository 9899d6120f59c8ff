// A receiver goes through symbols that tell nothing.
ghost use Rattle.std.specs.Prelude.{◌≡◌, true, false, ℕ, suc, ◌+◌, ◌*◌, ◌≤◌, ◌<◌, ◌^◌, [], length};
ghost use Rattle.sync_corr.specs.Rows.{SmallRows};
ghost use Rattle.sync_block.specs.Quiet.{Ahead, passed_run};
ghost use Rattle.receiver_bounds.specs.Bounds.{tally_within};
ghost use Rattle.receiver.specs.Ranges.{receiver_in_range};
ghost use Rattle.receiver_feed.specs.Quiet.{Fits, moves_from, moving, passed_by, phase_on, place_in};

use crate::{Moved, Passed, quiet};
use carrier::Nco;
use phase::Held;
use receiver::{Front, Receiver};
use sync::SlotSync;
use sync_step::Run;

fn phase_on(s: Option<Held>, k: usize) -> Option<Held>
    requires { k ≤ 9296 }
    ensures { result ≡ phase_on k s }
{
    match s {
        None => None,
        Some(x) => {
            let h = x.head;
            let c = x.count as usize + k;
            if c < 9296 {
                Some(Held {
                    head: h,
                    count: c as u32,
                })
            } else {
                Some(Held {
                    head: h,
                    count: 9296,
                })
            }
        }
    }
}

fn run_on(r: Run, win: [i16; 48], m: Moved) -> SlotSync
    requires { r.t + m.taken < 2 ^ 64 }
    ensures { result ≡ passed_run r win m.taken m.tally }
{
    let y = m.tally;
    let l = r.lock;
    let g = r.stage;
    let c = r.course;
    let n = m.taken;
    SlotSync {
        win: win,
        run: Run {
            base: r.base,
            t: r.t + (n as u64),
            tally: y,
            lock: l,
            stage: g,
            course: c,
        },
    }
}

// A function, since a parameter's numbers have their ranges, and a field of a field has not.
fn nco_on(n: Nco, phase: u32) -> Nco
    ensures { result ≡ record { phase = phase; freq = n.freq; trail = n.trail } }
{
    let t = n.trail;
    Nco {
        phase: phase,
        freq: n.freq,
        trail: t,
    }
}

fn freq_of(n: Nco) -> i32
    ensures { result ≡ n.freq }
{
    n.freq
}

// .. and arrays their lengths.
fn window_of(s: SlotSync) -> [i16; 48]
    ensures { (result ≡ s.win) × (length result ≡ 48) }
{
    s.win
}

fn passed(r: Receiver, win: [i16; 48], m: Moved) -> Receiver
    requires { (r.front.sync.run.t + m.taken < 2 ^ 64) × (m.taken ≤ 9296) }
    ensures { result ≡ passed_by r m.taken (moving win m.tally [] [] m.phase) }
{
    let n = r.front.nco;
    let y = r.front.sync.run;
    let a = r.front;
    let s = a.phase;
    let back = r.back;
    let points = r.points;
    Receiver {
        front: Front {
            nco: nco_on(n, m.phase),
            sync: run_on(y, win, m),
            phase: phase_on(s, m.taken),
        },
        back: back,
        points: points,
    }
}

// m symbols that tell nothing, from symbol i on; fewer where the figures leave their range.
pub(crate) fn stretch(
    r: Receiver,
    bytes: &[i8],
    i: usize,
    m: usize,
    rows: &[i16; 192],
    table: &[i16],
    acc: &mut [u32],
    store: &mut [i16],
) -> Passed
    requires { (receiver_in_range r ≡ true) × (Ahead r.front.sync.run (suc m)) × (1 ≤ m) × (2 * (i + m) ≤ length bytes.now) × (SmallRows rows.now) × (length table.now ≡ 1024) × (length acc.old ≡ 9296) × (length store.old ≡ 18592) }
    ensures { (result.receiver ≡ passed_by r result.taken (moves_from r bytes.now table.now rows.now acc.old store.old i result.taken)) × (acc.new ≡ (moves_from r bytes.now table.now rows.now acc.old store.old i result.taken).acc) × (store.new ≡ (moves_from r bytes.now table.now rows.now acc.old store.old i result.taken).store) × (1 ≤ result.taken) × (result.taken ≤ m) × ((j : ℕ) → j < result.taken → Fits (moves_from r bytes.now table.now rows.now acc.old store.old i j)) × (receiver_in_range result.receiver ≡ tally_within result.receiver.front.sync.run.tally) }
{
    let n = r.front.nco;
    let y = r.front.sync.run;
    let y0 = y.tally;
    let a = r.front;
    let s = a.phase;
    let z = a.sync;
    let mut win = window_of(z);
    let p = sync_step::plain::place(y.t);
    let d = freq_of(n);
    let x = quiet::moved(
        y0, n.phase, d, bytes, i, m, p, s, rows, table, &mut win, acc, store,
    );
    Passed {
        taken: x.taken,
        receiver: passed(r, win, x),
    }
}
