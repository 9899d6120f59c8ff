// What the crates above share and needs nothing of its caller. Each test has bounds of its own beside those of the stage's crate, field by field: one
// function for both would take every bound as an argument and be no plainer.
ghost use Rattle.std.specs.Prelude.{◌≡◌, ◌<◌, leb, nat_abs};
ghost use Rattle.receiver_bounds.specs.Bounds.{within, all_within, even as Bounds·even, steps_within, nco_within, corr_within, first_within, stage_within, tally_within, run_within, head_within, held_within, phase_within, sums_within, eq_within, meta_within, metas_within, last_within, back_within, points_within};

use carrier::{Nco, Steps};
use eq::Equaliser;
use frame::Back;
use frame_line::{Meta, Metas};
use phase::Held;
use receiver_slot::Points;
use sums::Sums;
use sync_corr::Corr;
use sync_heads::{Head, Reading, Stage};
use sync_lock::Tally;
use sync_step::Run;

fn between(a: u64, b: u64, v: u64) -> bool
    ensures { result ≡ within a b v }
{
    (a <= v) & (v <= b)
}

fn even(a: u32) -> bool
    ensures { result ≡ Bounds·even a }
{
    a % 2 == 0
}

fn steps_within(s: Steps) -> bool
    ensures { result ≡ steps_within s }
{
    (s.steps <= 59) & (-126701535232 <= s.sum) & (s.sum <= 126701535114) & even(s.last_ss)
}

pub fn nco_within(n: Nco) -> bool
    ensures { result ≡ nco_within n }
{
    n.trail.is_none_or(steps_within)
}

fn right_within(p: &[i64; 22]) -> bool
    ensures { result ≡ all_within 199010845458432 p.now }
{
    let mut all = true;
    for &v in p {
        all = all & ((-199010845458432 <= v) & (v <= 199010845458432));
    }
    all
}

fn part_within(v: i32) -> bool
    ensures { result ≡ leb (nat_abs v) 98328 }
{
    (-98328 <= v) & (v <= 98328)
}

fn corr_within(c: Corr) -> bool
    ensures { result ≡ corr_within c }
{
    part_within(c.re) & part_within(c.im)
}

fn first_within(z: Reading) -> bool
    ensures { result ≡ first_within z }
{
    between(37184, 4611686018427387880, z.at) & corr_within(z.both.f) & corr_within(z.both.s)
}

fn stage_within(k: Stage) -> bool
    ensures { result ≡ stage_within k }
{
    match k {
        Stage::Before => true,
        Stage::First(z) => first_within(z),
        Stage::Known(p) => corr_within(p.last),
    }
}

pub fn tally_within(t: Tally) -> bool
    ensures { result ≡ tally_within t }
{
    (t.peak <= 3758114816) & (t.place <= 9295) & (t.sum <= 34935435329536)
}

pub fn run_within(r: Run) -> bool
    ensures { result ≡ run_within r }
{
    (r.t <= 4611686018427387904)
        & tally_within(r.tally)
        & sync_lock::plain::lock_in_range(r.lock)
        & stage_within(r.stage)
        & sync_heads::plain::course_in_range(r.course)
}

fn head_within(h: Head) -> bool
    ensures { result ≡ head_within h }
{
    between(46480, 4611686018427387880, h.at)
        & corr_within(h.corr)
        & (0 <= h.amp)
        & (h.amp <= 179130)
        & sync_heads::plain::slot_in_range(h.slot)
        & (h.nco_phase == 0)
        & even(h.theta)
}

fn held_within(x: Held) -> bool
    ensures { result ≡ held_within x }
{
    head_within(x.head) & between(1, 9296, x.count as u64)
}

pub fn phase_within(s: Option<Held>) -> bool
    ensures { result ≡ phase_within s }
{
    s.is_none_or(held_within)
}

fn sums_within(s: Sums) -> bool
    ensures { result ≡ sums_within s }
{
    (s.count <= 4194288) & eq_train::plain::upper_in_range(4194288, &s.r) & right_within(&s.p)
}

fn eq_within(e: Equaliser) -> bool
    ensures { result ≡ eq_within e }
{
    let whole = (e.filled == 0) | (e.filled == 11);
    if e.opened {
        whole & sums_within(e.sums)
    } else {
        whole
    }
}

// Of the waiting symbol at place k.
fn meta_within(k: u16, m: Meta) -> bool
    requires { k < 5 }
    ensures { result ≡ meta_within k m }
{
    (m.j == 9291 + k)
        & between(55771 + (k as u64), 4611686018427387875 + (k as u64), m.at)
        & sync_heads::plain::slot_in_range(m.slot)
}

fn metas_within(w: Metas) -> bool
    ensures { result ≡ metas_within w }
{
    (w.count == 0)
        | ((w.count == 5)
            & meta_within(0, w.first)
            & meta_within(1, w.second)
            & meta_within(2, w.third)
            & meta_within(3, w.fourth)
            & meta_within(4, w.fifth))
}

#[tactic(auto, using(laws::specs::Choice::cases), unfolding(crate::specs::Bounds::within, crate::specs::Bounds::last_within))]
fn last_within(l: Option<u64>) -> bool
    ensures { result ≡ last_within l }
{
    l.is_none_or(|a| between(55775, 4611686018427387879, a))
}

pub fn back_within(b: Back) -> bool
    ensures { result ≡ back_within b }
{
    eq_within(b.eq) & metas_within(b.metas) & last_within(b.last)
}

pub fn points_within(p: Points) -> bool
    ensures { result ≡ points_within p }
{
    (p.bits <= 5) & (p.k <= 16777216)
}
