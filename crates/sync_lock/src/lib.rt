// The lock: the figures of a period and the rule at its end, after `push` and `period_end` of chain/sync.rs.
#![tactic(auto)]

pub mod plain;
pub mod ranged;

// The running figures of a period: its first greatest accumulator, that one's position, and the sum of all.
#[derive(Clone, Copy)]
pub struct Tally {
    pub peak: u32,
    pub place: u16,
    pub sum: u64,
}

#[derive(Clone, Copy)]
pub enum Lock {
    Search { cand: u16, count: u32 },
    Locked { offset: u16, misses: u32 },
}

// What a period's end makes of the lock.
#[derive(Clone, Copy)]
pub enum Verdict {
    Seeks { cand: u16, count: u32 },
    Locks { offset: u16 },
    Holds { offset: u16, misses: u32 },
    Loses,
}
