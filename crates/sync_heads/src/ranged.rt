// For the slot sync, which proves the ranges: what a reading comes to.
// The ranges stand in each contract and not in a type with an invariant: a state is handed in by anyone and may be out of range, the entries refuse
// such a one and hand it back, and such a type could not hold it.
#![tactic(auto, unfolding(crate::specs::Heads::is_fsync, crate::specs::Heads::ssync_taken, crate::specs::Heads::fsync_taken, crate::specs::Heads::both_heads))]

ghost use Rattle.std.specs.Prelude.{◌≡◌};
ghost use Rattle.sync_heads.specs.Heads.{head_of, is_fsync, ssync_of, fsync_of, ssync_taken, fsync_taken, known_of, both_heads, first_of, read_of};
ghost use Rattle.sync_heads.specs.Ready.{Small, ReadingOk, CourseOk, ParityOk, StageOk};

use crate::{
    Course, Head, Parity, Reading, Said, SlotNumber, Stage, Taken, Told, Word, frames, words,
};
use sync_corr::Corr;

// The head as told.
fn head_of(w: Said, at: u64, slot: Option<SlotNumber>) -> Head
    requires { Small w.corr }
    ensures { result ≡ head_of w at slot }
{
    let p = fx::ranged::cordic(w.corr.re as i64, w.corr.im as i64);
    Head {
        at,
        word: w.word,
        corr: w.corr,
        theta: p.angle,
        amp: p.size,
        slot,
        nco_phase: 0,
    }
}

fn is_fsync(w: Word) -> bool
    ensures { result ≡ is_fsync w }
{
    matches!(w, Word::Fsync)
}

// A head that carries Ssync.
fn ssync_head(c: Course, r: Reading) -> Told
    requires { (ReadingOk r) × CourseOk c }
    ensures { result ≡ ssync_of c r }
{
    let slot = frames::next_slot(c.slot);
    let w = words::said(true, r.both, r.both.s);
    Told {
        lost: false,
        course: frames::moved_on(c, c.majority, slot),
        head: Some(head_of(w, r.at, slot)),
    }
}

// A head that carries an F word, against the Ssync head before.
fn fsync_head(c: Course, r: Reading, last: Corr) -> Told
    requires { (ReadingOk r) × (CourseOk c) × (Small last) }
    ensures { result ≡ fsync_of 9296 c r last }
{
    let w = words::said(false, r.both, last);
    let m = frames::fsync_course(is_fsync(w.word), c, r.at);
    if m.lost {
        Told {
            lost: true,
            course: m.course,
            head: None,
        }
    } else {
        Told {
            lost: false,
            course: m.course,
            head: Some(head_of(w, r.at, m.course.slot)),
        }
    }
}

// A reading that carries Ssync, where `odd` tells which heads do.
fn ssync_taken(odd: bool, c: Course, r: Reading) -> Taken
    requires { (CourseOk c) × (ReadingOk r) }
    ensures { result ≡ ssync_taken odd c r }
{
    let t = ssync_head(c, r);
    Taken {
        lost: false,
        stage: Stage::Known(Parity {
            odd,
            due: false,
            last: r.both.s,
        }),
        course: t.course,
        first: t.head,
        second: None,
    }
}

// A reading that carries an F word. One function for this and the one above would take the parity and the head's outcome as arguments, and be no
// plainer than the two records, which read as `ssync_taken` and `fsync_taken` do.
fn fsync_taken(odd: bool, last: Corr, c: Course, r: Reading) -> Taken
    requires { (Small last) × (CourseOk c) × (ReadingOk r) }
    ensures { result ≡ fsync_taken 9296 odd last c r }
{
    let t = fsync_head(c, r, last);
    Taken {
        lost: t.lost,
        stage: Stage::Known(Parity {
            odd,
            due: true,
            last,
        }),
        course: t.course,
        first: t.head,
        second: None,
    }
}

// Once the parity is known, they take turns.
fn known(p: Parity, c: Course, r: Reading) -> Taken
    requires { (ParityOk p) × (CourseOk c) × (ReadingOk r) }
    ensures { result ≡ known_of 9296 p c r }
{
    if p.due {
        ssync_taken(p.odd, c, r)
    } else {
        fsync_taken(p.odd, p.last, c, r)
    }
}

// Head zero, which carries Ssync, and head one.
fn both_heads(z: Reading, c: Course, r: Reading) -> Taken
    requires { (ReadingOk z) × (CourseOk c) × (ReadingOk r) }
    ensures { result ≡ both_heads 9296 z c r }
{
    let a = ssync_head(c, z);
    let t = fsync_taken(false, z.both.s, a.course, r);
    Taken {
        first: a.head,
        second: t.first,
        ..t
    }
}

// Head one, after head zero was held: the larger margin tells which of them carries Ssync. If that is head one, head zero stays silent.
fn first(z: Reading, c: Course, r: Reading) -> Taken
    requires { (ReadingOk z) × (CourseOk c) × (ReadingOk r) }
    ensures { result ≡ first_of 9296 z c r }
{
    if words::margin(z.both) < words::margin(r.both) {
        ssync_taken(true, c, r)
    } else {
        both_heads(z, c, r)
    }
}

// One more reading.
pub fn read(k: Stage, c: Course, r: Reading) -> Taken
    requires { (StageOk k) × (CourseOk c) × (ReadingOk r) }
    ensures { result ≡ read_of 9296 k c r }
{
    match k {
        Stage::Before => Taken {
            lost: false,
            stage: Stage::First(r),
            course: c,
            first: None,
            second: None,
        },
        Stage::First(z) => first(z, c, r),
        Stage::Known(p) => known(p, c, r),
    }
}
