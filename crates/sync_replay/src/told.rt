// An answer as forty numbers: a place for the digest, refusal, correlations, level, and three rows of eleven for the events.
#![tactic(auto, unfolding(crate::specs::Told::row_of, crate::specs::Told::period_row, crate::specs::Told::refused_of, crate::specs::Told::noted_of))]

ghost use Rattle.std.specs.Prelude.{◌≡◌, ◌+◌, ◌<◌, ◌≤◌};
ghost use Rattle.std.proofs.lemmas.List.Edits.{sets};
ghost use Rattle.wire.specs.Wire.{byte_at};
ghost use Rattle.sync_replay.specs.Told.{head_row, period_row, row_of, answer_of, refused_of, noted_of, packed_of};

use crate::mixing;
use sync_heads::Head;
use sync_step::{Event, Events, LastCorr, SyncStats};
use wire::Field;

// The numbers stand in the order of the bytes of answers, which is another one in phase_wire.
fn head_row(h: Head) -> [u64; 11]
    ensures { result ≡ head_row h }
{
    let s = slot_wire::slot_shown(h.slot);
    [
        1,
        h.at,
        slot_wire::word_number(h.word),
        h.corr.re.to_bits(),
        h.corr.im.to_bits(),
        h.theta as u64,
        h.amp.to_bits(),
        s.known,
        s.number,
        s.frame,
        h.nco_phase as u64,
    ]
}

fn period_row(p: SyncStats) -> [u64; 11]
    ensures { result ≡ period_row p }
{
    [
        2,
        p.peak as u64,
        p.peak_pos as u64,
        p.sum,
        fields::flag(p.offset.is_some()),
        p.offset.unwrap_or(0) as u64,
        fields::flag(p.ssync_odd),
        p.stray_markers as u64,
        p.missed_markers as u64,
        0,
        0,
    ]
}

// The kinds of events by their numbers in the bytes of answers.
fn row(e: Event) -> [u64; 11]
    ensures { result ≡ row_of e }
{
    match e {
        Event::Nothing => [0, 0, 0, 0, 0, 0, 0, 0, 0, 0, 0],
        Event::Head(h) => head_row(h),
        Event::Period(p) => period_row(p),
        Event::Lost(at) => [3, at, 0, 0, 0, 0, 0, 0, 0, 0, 0],
    }
}

// An answer that is a refusal's number, or 0, alone: a number of the answer's bytes.
pub(crate) fn refused(n: u8) -> [u64; 40]
    ensures { result ≡ refused_of n }
{
    let mut t = [0u64; 40];
    t[1] = n as u64;
    t
}

// With an event's row from place k on.
fn placed(t: [u64; 40], k: usize, e: Event) -> [u64; 40]
    requires { k + 11 ≤ 40 }
    ensures { result ≡ sets t k (row_of e) }
{
    let x = row(e);
    let mut r = t;
    for i in 0..11 {
        r[k + i] = x[i];
    }
    r
}

// The answer to a symbol that is taken.
pub(crate) fn answer(last: LastCorr, es: Events) -> [u64; 40]
    ensures { result ≡ answer_of last es }
{
    let mut t = refused(0);
    t[2] = last.both.f.re.to_bits();
    t[3] = last.both.f.im.to_bits();
    t[4] = last.both.s.re.to_bits();
    t[5] = last.both.s.im.to_bits();
    t[6] = last.level as u64;
    let x = placed(t, 7, es.first);
    let y = placed(x, 18, es.second);
    placed(y, 29, es.third)
}

// An answer with the digest that it leaves.
pub(crate) fn noted(digest: u64, answer: [u64; 40]) -> [u64; 40]
    ensures { result ≡ noted_of digest answer }
{
    let mut t = answer;
    t[0] = mixing::mixed_all(digest, &answer);
    t
}

// Forty numbers, eight bytes each.
pub(crate) fn packed(n: &[u64; 40]) -> [u8; 320]
    ensures { result ≡ packed_of n.now }
{
    std::array::from_fn(
        |i: usize| -> u8
            requires { i < 320 }
            ensures { result ≡ byte_at n.entry.now i }
        { wire::bytes(n[i / 8])[i % 8] },
    )
}
