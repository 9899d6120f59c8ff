// For the slot sync and the receiver, which prove the ranges.
// The ranges stand in each contract and not in a type with an invariant: a state is handed in by anyone and may be out of range, the entries refuse
// such a one and hand it back, and such a type could not hold it.
#![tactic(auto, unfolding(crate::specs::Step::early_of, crate::specs::Step::after_of))]

ghost use Rattle.std.specs.Prelude.{◌≡◌, ◌+◌, ◌≤◌, ◌<◌};
ghost use Rattle.sync_heads.specs.Ready.{Smalls};
ghost use Rattle.sync_step.specs.Step.{taken_of, after_of, late_of, early_of, step_of};
ghost use Rattle.sync_step.specs.Ranges.{RunOk};

use crate::{LastCorr, Run, Step, Stores, ends};
use sync_corr::Both;
use sync_heads::{Reading, Taken};

// What the window at position p is read as: a head, if the sync is locked there.
fn taken(r: Run, p: usize, b: Both) -> Taken
    requires { (RunOk r) × (Smalls b) × (23 ≤ r.t) }
    ensures { result ≡ taken_of 9296 r p b }
{
    if sync_lock::plain::locked_at(r.lock, p) {
        let at = r.base + r.t - 23;
        sync_heads::ranged::read(r.stage, r.course, Reading { at, both: b })
    } else {
        Taken {
            lost: false,
            stage: r.stage,
            course: r.course,
            first: None,
            second: None,
        }
    }
}

// The run after a symbol at position p, whose accumulator is a.
fn after(r: Run, p: usize, a: u32, k: Taken) -> Run
    requires { (RunOk r) × (p < 9296) }
    ensures { result ≡ after_of r p a k }
{
    Run {
        t: r.t + 1,
        tally: sync_lock::ranged::counted(r.tally, p, a),
        stage: k.stage,
        course: k.course,
        ..r
    }
}

// A symbol that completes a window.
fn late(r: Run, b: Both, a: u32) -> Step
    requires { (RunOk r) × (Smalls b) × (23 ≤ r.t) }
    ensures { result ≡ late_of 9296 r b a }
{
    let p = crate::plain::place(r.t);
    let level = sync_lock::plain::leak(a, sync_corr::plain::size(b));
    let k = taken(r, p, b);
    let es = ends::heads_of(k);
    if k.lost {
        let f = k.course.last;
        if p == 9295 {
            ends::lost_at_end(r.base + r.t + 1, f, es)
        } else {
            ends::lost(r.base + r.t + 1, f, es)
        }
    } else {
        let n = after(r, p, level, k);
        let last = LastCorr { both: b, level };
        if p == 9295 {
            ends::ended(n, last, es)
        } else {
            ends::kept(n, last, es)
        }
    }
}

// One of the first 23 symbols.
fn early(r: Run) -> Step
    requires { RunOk r }
    ensures { result ≡ early_of r }
{
    Step {
        run: Run { t: r.t + 1, ..r },
        stores: Stores::Nothing,
        last: ends::no_corr(),
        events: ends::no_events(),
    }
}

// One symbol.
pub fn step(r: Run, b: Both, a: u32) -> Step
    requires { (RunOk r) × (Smalls b) }
    ensures { result ≡ step_of 9296 r b a }
{
    if r.t < 23 { early(r) } else { late(r, b, a) }
}
