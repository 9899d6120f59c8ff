// For the receiver, which proves the ranges.
ghost use Rattle.std.specs.Prelude.{◌≡◌, true, ◌+◌, ◌≤◌, ◌<◌, ◌^◌, length};
ghost use Rattle.phase.specs.Phase.{corrected_of};
ghost use Rattle.phase.specs.Ranges.{WholeOk};
ghost use Rattle.eq_fir.specs.Rows.{rows_of, Bytes};
ghost use Rattle.frame_line.specs.Ranges.{last_in_range};
ghost use Rattle.frame.specs.Align.{pushed_back};
ghost use Rattle.frame.specs.Ranges.{PushOk};
ghost use Rattle.frame.specs.Stretch.{after_all};
ghost use Rattle.receiver_slot.specs.Slot.{corrected_all, aligned_all, soft_all, written_on, waiting_before, runs_of};
ghost use Rattle.receiver_slot.specs.Full.{trainings_on, full_at};
ghost use Rattle.receiver_slot.specs.Ranges.{BackOk, SlotOk};
ghost use Rattle.receiver_slot.specs.Steps.{back_at, soft_to, line_on, soft_on, put_at, meta_at, ended_of, tail_of, runs_from, RestOk};

use crate::{AlignedRun, Begun, Given, Points, Runs, bits, groups};
use eq::Equaliser;
use frame::{Back, Pushed};
use frame_line::{Meta, Metas};
use phase::WholeSlot;
use sync_heads::Head;

// Symbol j of a slot, corrected and aligned.
fn pushed(
    b: Back,
    w: WholeSlot,
    j: usize,
    table: &[i16],
    store: &[i16],
    f: &[i8; 48],
    s: &[i8; 48],
) -> Pushed
    requires { (WholeOk w) × (j < 9296) × (w.head.at + j < 2 ^ 62) × (length table.now ≡ 1024) × (length store.now ≡ 18592) × (PushOk b (corrected_of w table.now store.now j) f.now s.now) }
    ensures { result ≡ pushed_back b (corrected_of w table.now store.now j) f.now s.now }
{
    let c = phase::ranged::corrected(w, j, table, store);
    frame::ranged::pushed(b, c, f, s)
}

// The first 29 symbols of a slot, after which nothing trains, and the soft bits of those that come out.
fn first(
    b: Back,
    w: WholeSlot,
    p: Points,
    table: &[i16],
    store: &[i16],
    f: &[i8; 48],
    s: &[i8; 48],
    soft: &mut [i8],
) -> Begun
    requires { SlotOk b w p table.now store.now f.now s.now soft.old }
    ensures { (result.back ≡ back_at 29 b w table.now store.now f.now s.now) × (result.place ≡ length (soft_to 29 p b w table.now store.now f.now s.now)) × (soft.new ≡ written_on (soft_to 29 p b w table.now store.now f.now s.now) soft.old) }
{
    let mut back = b;
    let mut o: usize = 0;
    for j in 0..29 {
        let q = pushed(back, w, j, table, store, f, s);
        let out = q.out;
        o = bits::told(p, out, o, soft);
        back = q.back;
    }
    Begun {
        back: back,
        place: o,
    }
}

// The other 9,267: each shifts the line and lets out the one five before it. The last 135 let out main
// symbols. The rows come by a reference (docs/BENCHMARKS.md).
fn rest(
    line: &mut [i16; 22],
    rows: &[i16; 96],
    w: WholeSlot,
    p: Points,
    place: usize,
    table: &[i16],
    store: &[i16],
    soft: &mut [i8],
)
    requires { RestOk line.old rows.now w p place table.now store.now soft.old }
    ensures { (line.new ≡ line_on 9267 line.old w table.now store.now) × (soft.new ≡ put_at place (soft_on 9267 p rows.now line.old w table.now store.now) soft.old) }
{
    let mut z = [0i16; 272];
    let mut o = place;
    for g in 0..66 {
        let s = groups::stretch(g);
        o = groups::group(
            line,
            &mut z[0..272],
            rows,
            w,
            p,
            s.from,
            s.symbols,
            s.mains,
            o,
            table,
            store,
            soft,
        );
    }
    groups::group(
        line,
        &mut z[0..272],
        rows,
        w,
        p,
        9132,
        135,
        135,
        o,
        table,
        store,
        soft,
    );
}

fn meta(h: Head, j: usize) -> Meta
    requires { (j < 9296) × (h.at + j < 2 ^ 62) }
    ensures { result ≡ meta_at h j }
{
    let word = h.word;
    let slot = h.slot;
    Meta {
        at: h.at + (j as u64),
        j: j as u16,
        word: word,
        slot: slot,
    }
}

// The back behind a slot, by one within it and the line: the last five wait.
fn ended(b: Back, line: [i16; 22], h: Head) -> Back
    requires { h.at + 9296 ≤ 2 ^ 62 }
    ensures { result ≡ ended_of b line h }
{
    let e = b.eq;
    let taps = e.taps;
    let from = e.from;
    let sums = e.sums;
    Back {
        eq: Equaliser {
            line: line,
            filled: 11,
            taps: taps,
            from: from,
            opened: e.opened,
            sums: sums,
        },
        metas: Metas {
            count: 5,
            first: meta(h, 9291),
            second: meta(h, 9292),
            third: meta(h, 9293),
            fourth: meta(h, 9294),
            fifth: meta(h, 9295),
        },
        last: Some(h.at + 9295),
    }
}

// A function, since a parameter's arrays have their lengths, and those of what a call gave have not.
fn rows_of(e: Equaliser) -> [i16; 96]
    ensures { (result ≡ rows_of e.taps) × (Bytes result) × (length e.taps ≡ 22) × (length e.line ≡ 22) }
{
    let taps = e.taps;
    eq_fir::ranged_rows::rows(&taps)
}

// All symbols of a slot, and the soft bits of those that come out.
fn all(
    b: Back,
    w: WholeSlot,
    p: Points,
    table: &[i16],
    store: &[i16],
    f: &[i8; 48],
    s: &[i8; 48],
    soft: &mut [i8],
) -> Back
    requires { SlotOk b w p table.now store.now f.now s.now soft.old }
    ensures { (result ≡ back_at 9296 b w table.now store.now f.now s.now) × (soft.new ≡ written_on (soft_to 9296 p b w table.now store.now f.now s.now) soft.old) }
{
    let h = w.head;
    let g = first(b, w, p, table, store, f, s, soft);
    let x = g.back;
    let e = x.eq;
    let rows = rows_of(e);
    let mut line = e.line;
    rest(&mut line, &rows, w, p, g.place, table, store, soft);
    ended(x, line, h)
}

// Those that wait, told by the oldest.
fn tail(w: Metas, p: Points) -> AlignedRun
    requires { w.count ≤ 5 }
    ensures { result ≡ tail_of p w }
{
    if w.count == 0 {
        AlignedRun {
            at: 0,
            j: 0,
            count: 0,
            bits: 0,
        }
    } else {
        let m = w.first;
        AlignedRun {
            at: m.at,
            j: m.j,
            count: w.count as u16,
            bits: p.bits,
        }
    }
}

fn runs(b: Back, at: u64, p: Points) -> Runs
    requires { (last_in_range b.last ≡ true) × (b.metas.count ≤ 5) }
    ensures { result ≡ runs_from p b at }
{
    let from = frame::ranged::joined_to(b, at);
    let w = from.metas;
    Runs {
        tail: tail(w, p),
        body: AlignedRun {
            at: at,
            j: 0,
            count: 9291,
            bits: p.bits,
        },
    }
}

// A corrected slot: the back behind it, the runs that are told, and the soft bits from the buffer's start on.
pub fn slot(
    b: Back,
    w: WholeSlot,
    p: Points,
    table: &[i16],
    store: &[i16],
    f: &[i8; 48],
    s: &[i8; 48],
    soft: &mut [i8],
) -> Given
    requires { SlotOk b w p table.now store.now f.now s.now soft.old }
    ensures { (result.back ≡ after_all b (corrected_all 9296 w table.now store.now) f.now s.now) × (result.runs ≡ runs_of p (waiting_before b (corrected_all 9296 w table.now store.now)) (aligned_all b (corrected_all 9296 w table.now store.now) f.now s.now)) × (soft.new ≡ written_on (soft_all p (aligned_all b (corrected_all 9296 w table.now store.now) f.now s.now)) soft.old) }
{
    let h = w.head;
    let r = runs(b, h.at, p);
    let back = all(b, w, p, table, store, f, s, soft);
    Given {
        back: back,
        runs: r,
    }
}

// The trainings of a slot on such a line.
fn trainings(filled: u32) -> u32
    ensures { (result ≡ trainings_on filled) × (result ≤ 24) }
{
    if filled == 11 { 24 } else { 19 }
}

// Whether a slot at this position finds the sums full: then it is refused.
pub fn full(b: Back, at: u64) -> bool
    requires { BackOk b }
    ensures { result ≡ full_at b at }
{
    let e = b.eq;
    let last = b.last;
    let opened = e.opened;
    if opened {
        if frame_line::ranged::gap(last, at) {
            false
        } else {
            let s = e.sums;
            4194304 < s.count + trainings(e.filled)
        }
    } else {
        false
    }
}
