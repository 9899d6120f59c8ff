// Events, and what a period's end or a loss leaves.
#![tactic(auto, unfolding(crate::specs::Events::is_nothing, crate::specs::Events::event_of, crate::specs::Events::heads_of, crate::specs::Events::no_events, crate::specs::Events::no_corr, crate::specs::Step::started_of, crate::specs::Step::odd_of, crate::specs::Step::locked_offset, crate::specs::Step::stats_of, crate::specs::Step::loses_of, crate::specs::Step::kept_of, crate::specs::Step::lost_of, crate::specs::Step::lost_at_end, crate::specs::Step::with_lock, sync_lock::specs::Period::no_tally))]

ghost use Rattle.std.specs.Prelude.{◌≡◌, ◌≤◌, ◌<◌, ◌^◌};
ghost use Rattle.sync_lock.specs.Ranges.{Lockable};
ghost use Rattle.sync_step.specs.Events.{is_nothing, event_of, then_of, heads_of, no_events, no_corr};
ghost use Rattle.sync_step.specs.Step.{started_of, odd_of, locked_offset, stats_of, loses_of, lost_of, lost_at_end, kept_of, ended_of};

use crate::{Event, Events, LastCorr, Run, Step, Stores, SyncStats};
use sync_corr::{Both, Corr};
use sync_heads::{Course, FrameHead, Head, Stage, Taken};
use sync_lock::{Lock, Tally, Verdict};

fn is_nothing(e: Event) -> bool
    ensures { result ≡ is_nothing e }
{
    matches!(e, Event::Nothing)
}

fn event_of(h: Option<Head>) -> Event
    ensures { result ≡ event_of h }
{
    h.map_or(Event::Nothing, Event::Head)
}

// The heads of a reading. No From: the conversion would be public, where this function is the crate's own.
pub(crate) fn heads_of(k: Taken) -> Events
    ensures { result ≡ heads_of k }
{
    Events {
        first: event_of(k.first),
        second: event_of(k.second),
        third: Event::Nothing,
    }
}

// One more event, in the first place that is free.
fn then(es: Events, e: Event) -> Events
    ensures { result ≡ then_of es e }
{
    if is_nothing(es.first) {
        Events {
            first: e,
            third: Event::Nothing,
            ..es
        }
    } else if is_nothing(es.second) {
        Events {
            second: e,
            third: Event::Nothing,
            ..es
        }
    } else {
        Events { third: e, ..es }
    }
}

pub(crate) fn no_events() -> Events
    ensures { result ≡ no_events }
{
    Events {
        first: Event::Nothing,
        second: Event::Nothing,
        third: Event::Nothing,
    }
}

pub(crate) fn no_corr() -> LastCorr
    ensures { result ≡ no_corr }
{
    LastCorr {
        both: Both {
            f: Corr { re: 0, im: 0 },
            s: Corr { re: 0, im: 0 },
        },
        level: 0,
    }
}

// A sync that starts at a position, with the last frame record.
pub(crate) fn started(at: u64, last: Option<FrameHead>) -> Run
    ensures { result ≡ started_of at last }
{
    Run {
        base: at,
        t: 0,
        tally: Tally {
            peak: 0,
            place: 0,
            sum: 0,
        },
        lock: Lock::Search { cand: 0, count: 0 },
        stage: Stage::Before,
        course: Course {
            majority: 0,
            slot: None,
            last,
            misses: 0,
            stray: 0,
            missed: 0,
        },
    }
}

// The odd heads carry Ssync; while that is not known, none is said to.
fn odd(k: Stage) -> bool
    ensures { result ≡ odd_of k }
{
    match k {
        Stage::Before => false,
        Stage::First(_) => false,
        Stage::Known(p) => p.odd,
    }
}

fn offset(k: Lock) -> Option<u16>
    ensures { result ≡ locked_offset k }
{
    match k {
        Lock::Search { cand: _, count: _ } => None,
        Lock::Locked { offset, misses: _ } => Some(offset),
    }
}

// The statistics of the period that a run has just ended.
fn stats(r: Run) -> SyncStats
    ensures { result ≡ stats_of r }
{
    SyncStats {
        peak: r.tally.peak,
        peak_pos: r.tally.place,
        sum: r.tally.sum,
        offset: offset(r.lock),
        ssync_odd: odd(r.stage),
        stray_markers: r.course.stray,
        missed_markers: r.course.missed,
    }
}

// A loss: the sync starts anew at the next symbol's position.
pub(crate) fn lost(at: u64, last: Option<FrameHead>, es: Events) -> Step
    ensures { result ≡ lost_of at last es }
{
    Step {
        run: started(at, last),
        stores: Stores::Zeros,
        last: no_corr(),
        events: then(es, Event::Lost(at)),
    }
}

// A loss by markers on the last position of a period: that period ends, in the restarted sync.
pub(crate) fn lost_at_end(at: u64, last: Option<FrameHead>, es: Events) -> Step
    ensures { result ≡ lost_at_end at last es }
{
    let s = lost(at, last, es);
    Step {
        events: then(s.events, Event::Period(stats(s.run))),
        ..s
    }
}

fn loses(v: Verdict) -> bool
    ensures { result ≡ loses_of v }
{
    matches!(v, Verdict::Loses)
}

// The step that stores one accumulator.
pub(crate) fn kept(r: Run, last: LastCorr, es: Events) -> Step
    ensures { result ≡ kept_of r last es }
{
    Step {
        run: r,
        stores: Stores::One(last.level),
        last,
        events: es,
    }
}

// The end of a period: the lock rule, then the loss or the statistics.
pub(crate) fn ended(r: Run, last: LastCorr, es: Events) -> Step
    requires { (Lockable r.lock) × (r.tally.sum ≤ 2 ^ 62) × (r.base ≤ 2 ^ 62) × (r.t ≤ 2 ^ 62) }
    ensures { result ≡ ended_of 9296 r last es }
{
    let v = sync_lock::ranged::rule(r.lock, r.tally);
    if loses(v) {
        lost(r.base + r.t, r.course.last, es)
    } else {
        let n = Run {
            lock: sync_lock::plain::lock_after(v),
            ..r
        };
        kept(n, last, then(es, Event::Period(stats(n))))
    }
}
