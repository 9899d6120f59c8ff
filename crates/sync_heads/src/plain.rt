// What the crates above share and needs nothing of its caller.
#![tactic(auto, unfolding(crate::specs::Ranges::both_in_range, crate::specs::Ranges::reading_in_range, crate::specs::Ranges::stage_in_range, crate::specs::Ranges::slot_in_range, crate::specs::Ranges::record_in_range))]

ghost use Rattle.std.specs.Prelude.{◌≡◌, nat_le, unsigned_abs};
ghost use Rattle.sync_heads.specs.Ranges.{corr_in_range, reading_in_range, stage_in_range, slot_in_range, record_in_range, course_in_range};

use crate::{Course, FrameHead, Reading, SlotNumber, Stage};
use sync_corr::Corr;

fn part_in_range(v: i32) -> bool
    ensures { result ≡ nat_le (unsigned_abs v) 1572864 }
{
    (-1572864 <= v) & (v <= 1572864)
}

fn corr_in_range(c: Corr) -> bool
    ensures { result ≡ corr_in_range c }
{
    part_in_range(c.re) & part_in_range(c.im)
}

fn reading_in_range(r: Reading) -> bool
    ensures { result ≡ reading_in_range r }
{
    (37184 <= r.at)
        & (r.at <= 4611686018427387880)
        & (corr_in_range(r.both.f) & corr_in_range(r.both.s))
}

pub fn stage_in_range(k: Stage) -> bool
    ensures { result ≡ stage_in_range k }
{
    match k {
        Stage::Before => true,
        Stage::First(z) => reading_in_range(z),
        Stage::Known(p) => corr_in_range(p.last),
    }
}

pub fn slot_in_range(s: Option<SlotNumber>) -> bool
    ensures { result ≡ slot_in_range s }
{
    s.is_none_or(|k| k.number <= 119)
}

fn record_in_range(l: Option<FrameHead>) -> bool
    ensures { result ≡ record_in_range l }
{
    l.is_none_or(|k| (83664 <= k.at) & (k.at <= 4611686018427387880))
}

pub fn course_in_range(c: Course) -> bool
    ensures { result ≡ course_in_range c }
{
    ((-8 <= c.majority) & (c.majority <= 8))
        & slot_in_range(c.slot)
        & record_in_range(c.last)
        & (c.misses <= 1)
}
