// Answers as 24 numbers. A negative number is 2^64 more.
ghost use Rattle.std.specs.Prelude.{◌≡◌};
ghost use Rattle.frame_replay.specs.Told.{eq_shown, told_of};

use crate::kept::Kept;
use eq::Equaliser;
use eq_calls::told::{Digests, From};
use frame_line::Meta;

// An equaliser: digests of line and taps, the fill, the taps' frame, whether sums are open, and these: numbers of an answer's bytes.
#[derive(Clone, Copy)]
pub struct EqShown {
    pub line: u64,
    pub filled: u64,
    pub taps: u64,
    pub from: From,
    pub opened: u64,
    pub sums: Digests,
}

fn eq_shown(e: Equaliser) -> EqShown
    ensures { result ≡ eq_shown e }
{
    let line = e.line;
    let taps = e.taps;
    let from = e.from;
    let sums = e.sums;
    let a = digest::of(&line);
    let b = digest::of(&taps);
    let c = eq_calls::told::from_shown(from);
    let o = fields::flag(e.opened);
    let d = eq_calls::told::sums_shown(sums);
    EqShown {
        line: a,
        filled: e.filled as u64,
        taps: b,
        from: c,
        opened: o,
        sums: d,
    }
}

// The refusal, as the number of an answer's bytes, a symbol that there may be, how many wait, the last position, the equaliser.
pub(crate) fn told(k: Kept, refusal: u8, given: u64, m: Meta, i: u64, q: u64) -> [u64; 24]
    ensures { result ≡ told_of k refusal given m i q }
{
    let b = k.back;
    let e = b.eq;
    let last = b.last;
    let word = m.word;
    let slot = m.slot;
    let s = slot_wire::slot_shown(slot);
    let l = frame_wire::last_shown(last);
    let x = eq_shown(e);
    [
        refusal as u64,
        given,
        i,
        q,
        m.at,
        slot_wire::word_number(word),
        s.known,
        s.number,
        s.frame,
        m.j as u64,
        b.metas.count as u64,
        l.known,
        l.at,
        x.line,
        x.filled,
        x.taps,
        x.from.known,
        x.from.frame,
        x.opened,
        x.sums.frame,
        x.sums.count,
        x.sums.upper,
        x.sums.right,
        0,
    ]
}
