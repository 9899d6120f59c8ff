// What the program keeps from call to call, and what a call gives.
ghost use Rattle.std.specs.Prelude.{◌≡◌};
ghost use Rattle.frame_replay.specs.Kept.{with_back, with_eq, with_line, with_words, turned};

use eq::Equaliser;
use frame::Back;
use frame_line::Metas;
use sums::Sums;

// The sums are those that a solving is asked of.
#[derive(Clone, Copy)]
pub struct Kept {
    pub back: Back,
    pub sums: Sums,
    pub f: [i8; 48],
    pub s: [i8; 48],
}

#[derive(Clone, Copy)]
pub struct Turn {
    pub kept: Kept,
    pub told: [u64; 24],
}

// Another alignment.
pub(crate) fn with_back(k: Kept, b: Back) -> Kept
    ensures { result ≡ with_back k b }
{
    let t = k.sums;
    let f = k.f;
    let s = k.s;
    Kept {
        back: b,
        sums: t,
        f: f,
        s: s,
    }
}

// Another equaliser in the alignment, and other sums to solve.
pub(crate) fn with_eq(k: Kept, e: Equaliser, t: Sums) -> Kept
    ensures { result ≡ with_eq k e t }
{
    let b = k.back;
    let w = b.metas;
    let last = b.last;
    let f = k.f;
    let s = k.s;
    let c = Back {
        eq: e,
        metas: w,
        last: last,
    };
    Kept {
        back: c,
        sums: t,
        f: f,
        s: s,
    }
}

// Other symbols that wait, and another last position.
pub(crate) fn with_line(k: Kept, w: Metas, last: Option<u64>) -> Kept
    ensures { result ≡ with_line k w last }
{
    let b = k.back;
    let e = b.eq;
    let c = Back {
        eq: e,
        metas: w,
        last: last,
    };
    with_back(k, c)
}

pub(crate) fn with_words(k: Kept, f: [i8; 48], s: [i8; 48]) -> Kept
    ensures { result ≡ with_words k f s }
{
    let b = k.back;
    let t = k.sums;
    Kept {
        back: b,
        sums: t,
        f: f,
        s: s,
    }
}

pub(crate) fn turned(k: Kept, told: [u64; 24]) -> Turn
    ensures { result ≡ turned k told }
{
    Turn {
        kept: k,
        told: told,
    }
}
