// Answers as 24 numbers: the refusal, the answer's numbers, and zeros behind them. A negative number is 2^64 more.
ghost use Rattle.std.specs.Prelude.{◌≡◌};
ghost use Rattle.receiver_calls.specs.Told.{period_told, event_told, kind_of, played_told, ended_told};

use receiver_slot::Runs;
use sums::Sums;
use sync_step::{Event, Events, SyncStats};

// The numbers stand in the order of the bytes of answers; rows of another length hold them in sync_replay.
fn period(p: SyncStats) -> [u64; 24]
    ensures { result ≡ period_told p }
{
    [
        0,
        2,
        p.peak as u64,
        p.peak_pos as u64,
        p.sum,
        fields::flag(p.offset.is_some()),
        p.offset.unwrap_or(0) as u64,
        fields::flag(p.ssync_odd),
        p.stray_markers as u64,
        p.missed_markers as u64,
        0,
        0,
        0,
        0,
        0,
        0,
        0,
        0,
        0,
        0,
        0,
        0,
        0,
        0,
    ]
}

// An event with all its fields.
pub(crate) fn event(e: Event) -> [u64; 24]
    ensures { result ≡ event_told e }
{
    match e {
        Event::Nothing => fields::four(0, 0, 0, 0),
        Event::Head(h) => phase_wire::told::head(0, h, 0, 0, 0),
        Event::Period(p) => period(p),
        Event::Lost(at) => fields::four(0, 3, at, 0),
    }
}

// The kinds of events by their numbers in the bytes of answers.
fn kind(e: Event) -> u64
    ensures { result ≡ kind_of e }
{
    match e {
        Event::Nothing => 0,
        Event::Head(_) => 1,
        Event::Period(_) => 2,
        Event::Lost(_) => 3,
    }
}

// What a play comes to: the refusal as the number of an answer's bytes, the kinds of its events, and the runs.
pub(crate) fn played(refusal: u8, used: usize, es: Events, runs: Runs) -> [u64; 24]
    ensures { result ≡ played_told refusal used es runs }
{
    let t = runs.tail;
    let b = runs.body;
    [
        refusal as u64,
        used as u64,
        kind(es.first),
        kind(es.second),
        kind(es.third),
        t.at,
        t.j as u64,
        t.count as u64,
        t.bits as u64,
        b.at,
        b.j as u64,
        b.count as u64,
        b.bits as u64,
        0,
        0,
        0,
        0,
        0,
        0,
        0,
        0,
        0,
        0,
        0,
    ]
}

// The refusal likewise, whether sums ended, and these.
pub(crate) fn ended(refusal: u8, ended: bool, sums: Sums) -> [u64; 24]
    ensures { result ≡ ended_told refusal ended sums }
{
    let d = eq_calls::told::sums_shown(sums);
    [
        refusal as u64,
        fields::flag(ended),
        d.frame,
        d.count,
        d.upper,
        d.right,
        0,
        0,
        0,
        0,
        0,
        0,
        0,
        0,
        0,
        0,
        0,
        0,
        0,
        0,
        0,
        0,
        0,
        0,
    ]
}
