// What each call answers and leaves. Its numbers are those of p; number 0 has told which call it is.
ghost use Rattle.std.specs.Prelude.{◌≡◌};
ghost use Rattle.frame_replay.specs.Calls.{no_meta, plain, out_told, eq_call, new_call, restart_call, push_call, words_call, move_call, line_call};

use crate::kept::{Kept, Turn};
use crate::{given, kept, told};
use eq_calls::kept::Kept as EqKept;
use frame::AlignedSymbol;
use frame_line::Meta;
use wire::Field;

fn no_meta() -> Meta
    ensures { result ≡ no_meta }
{
    let w = frame_line::plain::none();
    w.first
}

// A refusal, or 0, as the number of an answer's bytes, and what is kept.
pub(crate) fn plain(k: Kept, refusal: u8) -> Turn
    ensures { result ≡ plain k refusal }
{
    let m = no_meta();
    let t = told::told(k, refusal, 0, m, 0, 0);
    kept::turned(k, t)
}

fn out_told(k: Kept, out: Option<AlignedSymbol>) -> Turn
    ensures { result ≡ out_told k out }
{
    match out {
        None => plain(k, 0),
        Some(a) => {
            let m = a.meta;
            let z = a.z;
            let i = z.i.to_bits();
            let q = z.q.to_bits();
            let t = told::told(k, 0, 1, m, i, q);
            kept::turned(k, t)
        }
    }
}

// A call of the alignment's own equaliser.
pub(crate) fn on_eq(op: u64, k: Kept, p: &[u64; 24]) -> Turn
    ensures { result ≡ eq_call op k p.now }
{
    let b = k.back;
    let e = b.eq;
    let s = k.sums;
    let t = eq_calls::turn(op, EqKept { eq: e, sums: s }, p);
    let n = t.kept;
    let a = t.told;
    let m = n.eq;
    let o = n.sums;
    kept::turned(kept::with_eq(k, m, o), a)
}

pub(crate) fn new(k: Kept) -> Turn
    ensures { result ≡ new_call k }
{
    let n = kept::with_back(k, frame::new());
    plain(n, 0)
}

pub(crate) fn restart(k: Kept) -> Turn
    ensures { result ≡ restart_call k }
{
    match frame::restart(k.back) {
        Ok(back) => plain(kept::with_back(k, back), 0),
        Err(refused) => plain(kept::with_back(k, refused.state), refused.why.number()),
    }
}

pub(crate) fn push(k: Kept, p: &[u64; 24]) -> Turn
    ensures { result ≡ push_call k p.now }
{
    let c = given::corrected_at(p);
    match frame::push(k.back, c, k.f, k.s) {
        Ok(r) => out_told(kept::with_back(k, r.back), r.out),
        Err(refused) => plain(kept::with_back(k, refused.state), refused.why.number()),
    }
}

// Other words, six numbers each.
pub(crate) fn words(k: Kept, p: &[u64; 24]) -> Turn
    ensures { result ≡ words_call k p.now }
{
    let bytes = wire::packed(p);
    let f = fields::ranged::ones_at(&bytes, 8);
    let s = fields::ranged::ones_at(&bytes, 56);
    let n = kept::with_words(k, f, s);
    plain(n, 0)
}

// One comes behind those that wait, whose count stays; the oldest goes and is told.
pub(crate) fn move_up(k: Kept, p: &[u64; 24]) -> Turn
    ensures { result ≡ move_call k p.now }
{
    let b = k.back;
    let w = b.metas;
    let last = b.last;
    let oldest = w.first;
    let m = frame_wire::ranged::meta_at(p, 1);
    let n = kept::with_line(k, frame_line::plain::move_up(w, m), last);
    let t = told::told(n, 0, 1, oldest, 0, 0);
    kept::turned(n, t)
}

// Another count, another last position.
pub(crate) fn line(k: Kept, p: &[u64; 24]) -> Turn
    ensures { result ≡ line_call k p.now }
{
    let b = k.back;
    let w = b.metas;
    let last = frame_wire::last_at(p);
    let n = kept::with_line(k, frame_wire::count_put(w, p), last);
    plain(n, 0)
}
