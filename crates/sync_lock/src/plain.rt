// What the crates above share and needs nothing of its caller.
#![tactic(auto, unfolding(crate::specs::Period::leak_of, crate::specs::Rule::lock_after, crate::specs::Rule::locked_at, crate::specs::Ranges::tally_in_range, crate::specs::Ranges::lock_in_range))]

ghost use Rattle.std.specs.Prelude.{◌≡◌, ◌+◌, ◌*◌, ◌<◌};
ghost use Rattle.sync_lock.specs.Period.{leak_of};
ghost use Rattle.sync_lock.specs.Rule.{lock_after, locked_at};
ghost use Rattle.sync_lock.specs.Ranges.{tally_in_range, lock_in_range};

use crate::{Lock, Tally, Verdict};

// The accumulator with one more size. 7a passes 32 bits.
pub fn leak(a: u32, size: u32) -> u32
    ensures { result ≡ leak_of a size }
{
    ((7 * (a as u64) + (size as u64)) / 8) as u32
}

// The lock after a verdict; a loss begins a new search. No From beside it: this public function stays, and a second name would be no plainer.
pub fn lock_after(v: Verdict) -> Lock
    ensures { result ≡ lock_after v }
{
    match v {
        Verdict::Seeks { cand, count } => Lock::Search { cand, count },
        Verdict::Locks { offset } => Lock::Locked { offset, misses: 0 },
        Verdict::Holds { offset, misses } => Lock::Locked { offset, misses },
        Verdict::Loses => Lock::Search { cand: 0, count: 0 },
    }
}

// Whether a head stands at position p.
pub fn locked_at(k: Lock, p: usize) -> bool
    ensures { result ≡ locked_at k p }
{
    match k {
        Lock::Search { cand: _, count: _ } => false,
        Lock::Locked { offset, misses: _ } => p == (offset as usize),
    }
}

pub fn tally_in_range(t: Tally) -> bool
    ensures { result ≡ tally_in_range t }
{
    (t.peak <= 3758292991) & (t.place <= 9295) & (t.sum <= 34937091644336)
}

pub fn lock_in_range(k: Lock) -> bool
    ensures { result ≡ lock_in_range k }
{
    match k {
        Lock::Search { cand, count } => (cand <= 9295) & (count <= 3),
        Lock::Locked { offset, misses } => (offset <= 9295) & (misses <= 7),
    }
}
