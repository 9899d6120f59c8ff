// A run as 24 numbers: 0, its numbers, and zeros behind them. A negative number is 2^64 more.
#![tactic(auto, unfolding(crate::specs::Told::lock_shown, crate::specs::Told::record_shown, crate::specs::Told::run_told))]

ghost use Rattle.std.specs.Prelude.{◌≡◌};
ghost use Rattle.sync_wire.specs.Told.{lock_shown, stage_shown, record_shown, run_told, heads_told};

use sync_heads::{FrameHead, Stage};
use sync_lock::Lock;
use sync_step::Run;
use wire::Field;

// Whether it is locked, candidate or offset, count or misses; whether there is a record, its position and frame. These are numbers of an answer's
// bytes, and so are those of a stage.
#[derive(Clone, Copy)]
pub struct ThreeShown {
    pub known: u64,
    pub first: u64,
    pub second: u64,
}

// 0, 1 or 2, and the numbers of that stage.
#[derive(Clone, Copy)]
pub struct StageShown {
    pub stage: u64,
    pub first: u64,
    pub second: u64,
    pub third: u64,
    pub fourth: u64,
    pub fifth: u64,
}

fn lock_shown(l: Lock) -> ThreeShown
    ensures { result ≡ lock_shown l }
{
    match l {
        Lock::Search { cand, count } => ThreeShown {
            known: 0,
            first: cand as u64,
            second: count as u64,
        },
        Lock::Locked { offset, misses } => ThreeShown {
            known: 1,
            first: offset as u64,
            second: misses as u64,
        },
    }
}

fn record_shown(l: Option<FrameHead>) -> ThreeShown
    ensures { result ≡ record_shown l }
{
    match l {
        None => ThreeShown {
            known: 0,
            first: 0,
            second: 0,
        },
        Some(l) => ThreeShown {
            known: 1,
            first: l.at,
            second: l.frame as u64,
        },
    }
}

fn stage_shown(s: Stage) -> StageShown
    ensures { result ≡ stage_shown s }
{
    match s {
        Stage::Before => StageShown {
            stage: 0,
            first: 0,
            second: 0,
            third: 0,
            fourth: 0,
            fifth: 0,
        },
        Stage::First(r) => {
            StageShown {
                stage: 1,
                first: r.at,
                second: r.both.f.re.to_bits(),
                third: r.both.f.im.to_bits(),
                fourth: r.both.s.re.to_bits(),
                fifth: r.both.s.im.to_bits(),
            }
        }
        Stage::Known(p) => {
            StageShown {
                stage: 2,
                first: fields::flag(p.odd),
                second: fields::flag(p.due),
                third: p.last.re.to_bits(),
                fourth: p.last.im.to_bits(),
                fifth: 0,
            }
        }
    }
}

// Base, count, running period, lock.
pub fn run(r: Run) -> [u64; 24]
    ensures { result ≡ run_told r }
{
    let k = lock_shown(r.lock);
    [
        0,
        r.base,
        r.t,
        r.tally.peak as u64,
        r.tally.place as u64,
        r.tally.sum,
        k.known,
        k.first,
        k.second,
        0,
        0,
        0,
        0,
        0,
        0,
        0,
        0,
        0,
        0,
        0,
        0,
        0,
        0,
        0,
    ]
}

// Stage and course.
pub fn heads(r: Run) -> [u64; 24]
    ensures { result ≡ heads_told r }
{
    let c = r.course;
    let x = stage_shown(r.stage);
    let y = slot_wire::slot_shown(c.slot);
    let z = record_shown(c.last);
    [
        0,
        x.stage,
        x.first,
        x.second,
        x.third,
        x.fourth,
        x.fifth,
        c.majority.to_bits(),
        y.known,
        y.number,
        y.frame,
        z.known,
        z.first,
        z.second,
        c.misses as u64,
        c.stray as u64,
        c.missed as u64,
        0,
        0,
        0,
        0,
        0,
        0,
        0,
    ]
}
