// What a head's word is.
ghost use Rattle.std.specs.Prelude.{◌≡◌, ◌^◌, ◌≤◌, pos, ◌*ℤ◌, unsigned_abs};
ghost use Rattle.fx.specs.Fx.{mag_approx};
ghost use Rattle.sync_heads.specs.Words.{side_of, margin_of, negated, said_of};
ghost use Rattle.sync_heads.specs.Ready.{Small, Smalls};

use crate::{Said, Word};
use sync_corr::{Both, Corr};

fn times(a: i32, b: i32) -> i64
    requires { (unsigned_abs a ≤ 1572864) × (unsigned_abs b ≤ 1572864) }
    ensures { (result ≡ a *ℤ b) × (unsigned_abs result ≤ 2 ^ 42) }
{
    (a as i64) * (b as i64)
}

// How far two correlations point the same way.
fn side(a: Corr, b: Corr) -> i64
    requires { (Small a) × (Small b) }
    ensures { result ≡ side_of a b }
{
    times(a.re, b.re) + times(a.im, b.im)
}

fn size(c: Corr) -> i64
    requires { Small c }
    ensures { (result ≡ pos (mag_approx c.re c.im)) × (unsigned_abs result ≤ 2 ^ 42) }
{
    fx::ranged::mag_approx(c.re as i64, c.im as i64)
}

// By how much the S word fits better than the F word.
pub(crate) fn margin(b: Both) -> i64
    requires { Smalls b }
    ensures { result ≡ margin_of b }
{
    size(b.s) - size(b.f)
}

fn turned(c: Corr) -> Corr
    requires { Small c }
    ensures { result ≡ negated c }
{
    Corr {
        re: -c.re,
        im: -c.im,
    }
}

// The word read, and its correlation with the sign taken off. `last` is that of the Ssync head before.
pub(crate) fn said(ssync: bool, b: Both, last: Corr) -> Said
    requires { (Smalls b) × (Small last) }
    ensures { result ≡ said_of ssync b last }
{
    if ssync {
        Said {
            word: Word::Ssync,
            corr: b.s,
        }
    } else if side(b.f, last) < 0 {
        Said {
            word: Word::NotFsync,
            corr: turned(b.f),
        }
    } else {
        Said {
            word: Word::Fsync,
            corr: b.f,
        }
    }
}
