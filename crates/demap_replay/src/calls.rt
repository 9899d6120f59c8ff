// What each call answers and leaves. Its numbers are those of p; number 0 has told which call it is.
ghost use Rattle.std.specs.Prelude.{◌≡◌};
ghost use Rattle.demap_replay.specs.Calls.{new_call, learned_turn, pilot_call, noise_call, sum_call, count_call, noise_put_call, default_call, force_call, renewed_turn, next_call, next_left, pointed_told, points_call, points_left, part_told, metric_call, block_call, label_call, figure_call};

use crate::kept::{Kept, Turn};
use crate::{given, kept, told};
use in_force::Renewed;
use learn::{Learn, Pointed};
use refusal::Refused;
use wire::Field;

fn index(n: u64) -> usize
    ensures { result ≡ n }
{
    n as usize
}

pub(crate) fn new(k: Kept) -> Turn
    ensures { result ≡ new_call k }
{
    let m = kept::with_learn(k, learn::new());
    kept::turned(m, told::single(0, 0, 0))
}

// What was learned, or handed in.
fn learned(k: Kept, r: &Result<Learn, Refused<Learn>>) -> Turn
    ensures { result ≡ learned_turn k r.now }
{
    match r {
        Ok(l) => kept::turned(kept::with_learn(k, *l), told::single(0, 0, 0)),
        Err(refused) => kept::turned(
            kept::with_learn(k, refused.state),
            told::single(refused.why.number(), 0, 0),
        ),
    }
}

pub(crate) fn pilot(k: Kept, p: &[u64; 24]) -> Turn
    ensures { result ≡ pilot_call k p.now }
{
    let r = learn::pilot(
        k.learn,
        index(p[1]),
        index(p[2]),
        i16::of_bits(p[3]),
        i16::of_bits(p[4]),
    );
    learned(k, &r)
}

pub(crate) fn noise(k: Kept, p: &[u64; 24]) -> Turn
    ensures { result ≡ noise_call k p.now }
{
    let r = learn::noise(
        k.learn,
        i16::of_bits(p[1]),
        i16::of_bits(p[2]),
        i64::of_bits(p[3]),
    );
    learned(k, &r)
}

pub(crate) fn sum(k: Kept, p: &[u64; 24]) -> Turn
    ensures { result ≡ sum_call k p.now }
{
    let n = given::sum_put(k.learn, p[1], i64::of_bits(p[2]));
    kept::turned(kept::with_learn(k, n), told::single(0, 0, 0))
}

pub(crate) fn count(k: Kept, p: &[u64; 24]) -> Turn
    ensures { result ≡ count_call k p.now }
{
    let n = given::count_put(k.learn, p[1], u32::of_bits(p[2]));
    kept::turned(kept::with_learn(k, n), told::single(0, 0, 0))
}

pub(crate) fn noise_put(k: Kept, p: &[u64; 24]) -> Turn
    ensures { result ≡ noise_put_call k p.now }
{
    let n = given::noise_put(k.learn, i64::of_bits(p[1]), u32::of_bits(p[2]));
    kept::turned(kept::with_learn(k, n), told::single(0, 0, 0))
}

pub(crate) fn default(k: Kept) -> Turn
    ensures { result ≡ default_call k }
{
    let m = kept::with_force(k, in_force::default());
    kept::turned(m, told::single(0, 0, 0))
}

pub(crate) fn force(k: Kept, p: &[u64; 24]) -> Turn
    ensures { result ≡ force_call k p.now }
{
    let m = kept::with_force(k, given::force_at(p));
    kept::turned(m, told::single(0, 0, 0))
}

// What is in force from now on, or was handed in.
fn renewed(k: Kept, r: Result<Renewed, Refused<Renewed>>) -> Turn
    ensures { result ≡ renewed_turn k r }
{
    match r {
        Ok(n) => kept::turned(kept::with_force(k, n.in_force), told::single(0, 0, 0)),
        Err(refused) => kept::turned(
            kept::with_force(k, refused.state.in_force),
            told::single(refused.why.number(), 0, 0),
        ),
    }
}

pub(crate) fn next(k: Kept, p: &[u64; 24], learned: &mut [i16]) -> Turn
    ensures { (result ≡ next_call k p.now learned.old) × (learned.new ≡ next_left k p.now learned.old) }
{
    let n = fields::least(p[2], learned.len());
    let r = in_force::next(k.force, k.learn, u32::of_bits(p[1]), &mut learned[..n]);
    renewed(k, r)
}

fn pointed(r: Result<Pointed, Refused<Learn>>) -> [u64; 24]
    ensures { result ≡ pointed_told r }
{
    match r {
        Ok(n) => told::single(0, fields::flag(n.learned), 0),
        Err(refused) => told::single(refused.why.number(), 0, 0),
    }
}

pub(crate) fn points(k: Kept, p: &[u64; 24], learned: &mut [i16]) -> Turn
    ensures { (result ≡ points_call k p.now learned.old) × (learned.new ≡ points_left k p.now learned.old) }
{
    let n = fields::least(p[2], learned.len());
    let r = learn::points(k.learn, index(p[1]), &mut learned[..n]);
    kept::turned(k, pointed(r))
}

// The chosen points: how many numbers, and their digest.
pub(crate) fn part<'a>(k: Kept, p: &[u64; 24], learned: &'a [i16], nominal: &'a [i16]) -> [u64; 24]
    ensures { result ≡ part_told k p.now learned.now nominal.now }
{
    let a = fields::least(p[2], learned.len());
    let b = fields::least(p[3], nominal.len());
    let flags = k.force.learned;
    match in_force::points_in_force(&learned[..a], &nominal[..b], flags, index(p[1])) {
        Ok(points) => told::single(0, points.len() as u64, digest::of(points)),
        Err(why) => told::single(why.number(), 0, digest::of(&nominal[0..0])),
    }
}

pub(crate) fn metric(p: &[u64; 24]) -> [u64; 24]
    ensures { result ≡ metric_call p.now }
{
    let m = demap::metric(
        i16::of_bits(p[1]),
        i16::of_bits(p[2]),
        i16::of_bits(p[3]),
        i16::of_bits(p[4]),
    );
    told::single(0, m.to_bits(), 0)
}

// A block of symbols from the learned numbers, with points from the nominal ones: soft values from p[6] on, of a buffer that holds 85s before.
pub(crate) fn block(p: &[u64; 24], learned: &[i16], nominal: &[i16]) -> [u64; 24]
    ensures { result ≡ block_call p.now learned.now nominal.now }
{
    let mut soft = [85i8; 41];
    let a = fields::least(p[1], learned.len());
    let b = fields::least(p[2], nominal.len());
    let c = fields::least(p[3], 41);
    let bits = index(p[4]);
    let k = i64::of_bits(p[5]);
    let r = demap::demap_block(&learned[..a], &nominal[..b], bits, k, &mut soft[..c]);
    told::soft(refusal::code(&r), p[6], &soft)
}

pub(crate) fn label(k: Kept, p: &[u64; 24]) -> [u64; 24]
    ensures { result ≡ label_call k p.now }
{
    told::label(k.learn, p[1])
}

pub(crate) fn figure(k: Kept) -> [u64; 24]
    ensures { result ≡ figure_call k }
{
    match learn::n0(k.learn) {
        Ok(r) => told::figure(r.figure),
        Err(refused) => told::single(refused.why.number(), 0, 0),
    }
}
