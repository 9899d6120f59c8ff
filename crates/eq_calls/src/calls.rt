// What each call answers and leaves. Its numbers are those of p; number 0 has told which call it is.
ghost use Rattle.std.specs.Prelude.{◌≡◌};
ghost use Rattle.eq_calls.specs.Calls.{plain, answer_call, symbol_told, symbol_call, closed_call, new_call, restart_call, push_call, output_call, open_call, train_call, close_call, load_call, line_call, taps_call, numbers_call, upper_call, right_call, keep_call, solve_call};

use crate::kept::{Kept, Turn};
use crate::{given, told};
use angles::Symbol;
use eq::{Closed, Equaliser, Pushed};
use refusal::Refused;
use sums::Sums;
use wire::Field;

// A refusal's number, or 0, and an equaliser.
fn plain(k: Kept, refusal: u8, eq: Equaliser) -> Turn
    ensures { result ≡ plain k refusal eq }
{
    let kept = Kept { eq, ..k };
    Turn {
        kept,
        told: told::told(kept, refusal, 0, 0, 0),
    }
}

fn answer(k: Kept, r: Result<Equaliser, Refused<Equaliser>>) -> Turn
    ensures { result ≡ answer_call k r }
{
    match r {
        Ok(e) => plain(k, 0, e),
        Err(x) => plain(k, x.why.number(), x.state),
    }
}

pub(crate) fn new(k: Kept) -> Turn
    ensures { result ≡ new_call k }
{
    plain(k, 0, eq::new())
}

pub(crate) fn restart(k: Kept) -> Turn
    ensures { result ≡ restart_call k }
{
    answer(k, eq::restart(k.eq))
}

fn symbol_told(k: Kept, s: Option<Symbol>) -> [u64; 24]
    ensures { result ≡ symbol_told k s }
{
    match s {
        None => told::told(k, 0, 0, 0, 0),
        Some(z) => told::told(k, 0, 1, z.i.to_bits(), z.q.to_bits()),
    }
}

fn symbol(k: Kept, r: &Result<Pushed, Refused<Equaliser>>) -> Turn
    ensures { result ≡ symbol_call k r.now }
{
    match r {
        Ok(x) => {
            let kept = Kept { eq: x.eq, ..k };
            Turn {
                kept,
                told: symbol_told(kept, x.out),
            }
        }
        Err(x) => plain(k, x.why.number(), x.state),
    }
}

pub(crate) fn push(k: Kept, p: &[u64; 24]) -> Turn
    ensures { result ≡ push_call k p.now }
{
    symbol(k, &eq::push(k.eq, i16::of_bits(p[1]), i16::of_bits(p[2])))
}

pub(crate) fn output(k: Kept) -> Turn
    ensures { result ≡ output_call k }
{
    symbol(k, &eq::output(k.eq))
}

pub(crate) fn open(k: Kept, p: &[u64; 24]) -> Turn
    ensures { result ≡ open_call k p.now }
{
    answer(k, eq::open(k.eq, u32::of_bits(p[1])))
}

pub(crate) fn train(k: Kept, p: &[u64; 24]) -> Turn
    ensures { result ≡ train_call k p.now }
{
    answer(k, eq::train(k.eq, i16::of_bits(p[1]), i16::of_bits(p[2])))
}

// The sums that it answers, or none, are those to solve from now on.
fn closed(r: Result<Closed, Refused<Equaliser>>) -> Turn
    ensures { result ≡ closed_call r }
{
    match r {
        Ok(x) => {
            let kept = Kept {
                eq: x.eq,
                sums: x.sums.unwrap_or(sums::new(0)),
            };
            Turn {
                kept,
                told: told::told(kept, 0, fields::flag(x.sums.is_some()), 0, 0),
            }
        }
        Err(x) => {
            let kept = Kept {
                eq: x.state,
                sums: sums::new(0),
            };
            Turn {
                kept,
                told: told::told(kept, x.why.number(), 0, 0, 0),
            }
        }
    }
}

pub(crate) fn close(k: Kept) -> Turn
    ensures { result ≡ close_call k }
{
    closed(eq::close(k.eq))
}

pub(crate) fn load(k: Kept, p: &[u64; 24]) -> Turn
    ensures { result ≡ load_call k p.now }
{
    answer(k, eq::load(k.eq, fields::parts(p), u32::of_bits(p[1])))
}

// This, `taps`, `upper` and `right` are no plainer as one function, which would be told by a closure what this line tells.
pub(crate) fn line(k: Kept, p: &[u64; 24]) -> Turn
    ensures { result ≡ line_call k p.now }
{
    let line = fields::parts(p);
    plain(k, 0, Equaliser { line, ..k.eq })
}

pub(crate) fn taps(k: Kept, p: &[u64; 24]) -> Turn
    ensures { result ≡ taps_call k p.now }
{
    let taps = fields::parts(p);
    plain(k, 0, Equaliser { taps, ..k.eq })
}

pub(crate) fn numbers(k: Kept, p: &[u64; 24]) -> Turn
    ensures { result ≡ numbers_call k p.now }
{
    plain(k, 0, given::numbers_put(k.eq, p))
}

pub(crate) fn upper(k: Kept, p: &[u64; 24]) -> Turn
    ensures { result ≡ upper_call k p.now }
{
    let r = given::upper_of(&k.eq.sums.r, p[1], &fields::parts(p));
    let sums = Sums { r, ..k.eq.sums };
    plain(k, 0, Equaliser { sums, ..k.eq })
}

pub(crate) fn right(k: Kept, p: &[u64; 24]) -> Turn
    ensures { result ≡ right_call k p.now }
{
    let sums = Sums {
        p: fields::parts(p),
        ..k.eq.sums
    };
    plain(k, 0, Equaliser { sums, ..k.eq })
}

// The equaliser's sums are those to solve from now on.
pub(crate) fn keep(k: Kept) -> Turn
    ensures { result ≡ keep_call k }
{
    let sums = k.eq.sums;
    plain(Kept { sums, ..k }, 0, k.eq)
}

pub(crate) fn solve(k: Kept) -> Turn
    ensures { result ≡ solve_call k }
{
    Turn {
        kept: k,
        told: told::solved(solve::solve_sums(k.sums)),
    }
}
