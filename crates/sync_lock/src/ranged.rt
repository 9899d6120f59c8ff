// For the slot sync, which proves the ranges.
// The ranges stand in each contract and not in a type with an invariant: a state is handed in by anyone and may be out of range, the entries refuse
// such a one and hand it back, and such a type could not hold it.
#![tactic(auto, using(laws::specs::Choice::cases), unfolding(crate::specs::Period::counts_of, crate::specs::Rule::sought_of, crate::specs::Rule::search_of, crate::specs::Rule::held_of, crate::specs::Rule::rule_of))]

ghost use Rattle.std.specs.Prelude.{◌≡◌, ◌+◌, ◌*◌, ◌≤◌, ◌<◌, ◌^◌};
ghost use Rattle.sync_lock.specs.Period.{counted_of, counts_of};
ghost use Rattle.sync_lock.specs.Rule.{sought_of, search_of, held_of, rule_of};
ghost use Rattle.sync_lock.specs.Ranges.{Lockable};

use crate::{Lock, Tally, Verdict};

// The figures with the accumulator a at position p; position 0 begins them anew.
pub fn counted(t: Tally, p: usize, a: u32) -> Tally
    requires { (p < 9296) × (t.sum ≤ 2 ^ 62) }
    ensures { result ≡ counted_of t p a }
{
    if p == 0 {
        Tally {
            peak: a,
            place: 0,
            sum: a as u64,
        }
    } else if t.peak < a {
        Tally {
            peak: a,
            place: p as u16,
            sum: t.sum + (a as u64),
        }
    } else {
        Tally {
            sum: t.sum + (a as u64),
            ..t
        }
    }
}

fn counts(t: Tally) -> bool
    requires { t.sum ≤ 2 ^ 62 }
    ensures { result ≡ counts_of 9296 t }
{
    (0 < t.peak) & (3 * t.sum <= (t.peak as u64) * 9296)
}

// The counting periods in a row with one peak position, this one included.
fn sought(counting: bool, place: u16, cand: u16, count: u32) -> u32
    requires { count < 4 }
    ensures { (result ≡ sought_of counting place cand count) × (result ≤ 4) }
{
    if counting {
        if place == cand { count + 1 } else { 1 }
    } else {
        0
    }
}

fn search(counting: bool, place: u16, cand: u16, count: u32) -> Verdict
    requires { count < 4 }
    ensures { result ≡ search_of counting place cand count }
{
    let n = sought(counting, place, cand, count);
    if n < 4 {
        Verdict::Seeks {
            cand: place,
            count: n,
        }
    } else {
        Verdict::Locks { offset: place }
    }
}

fn held(good: bool, offset: u16, misses: u32) -> Verdict
    requires { misses < 8 }
    ensures { result ≡ held_of good offset misses }
{
    if good {
        Verdict::Holds { offset, misses: 0 }
    } else if misses < 7 {
        Verdict::Holds {
            offset,
            misses: misses + 1,
        }
    } else {
        Verdict::Loses
    }
}

// The rule at a period's end.
pub fn rule(k: Lock, t: Tally) -> Verdict
    requires { (Lockable k) × (t.sum ≤ 2 ^ 62) }
    ensures { result ≡ rule_of 9296 k t }
{
    let c = counts(t);
    match k {
        Lock::Search { cand, count } => search(c, t.place, cand, count),
        Lock::Locked { offset, misses } => held(c & (t.place == offset), offset, misses),
    }
}
