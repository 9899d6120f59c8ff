// One symbol of the slot sync, after `push` and `period_end` of chain/sync.rs: a pure step. It is given the correlations of the window
// that the symbol completes and the accumulator of its position, and says what is to be stored, so that nothing is written before all is known.
#![tactic(auto)]

mod ends;
pub mod plain;
pub mod ranged;

use sync_corr::Both;
use sync_heads::{Course, Head, Stage};
use sync_lock::{Lock, Tally};

// All of a sync but its window: where it was started, the symbols since, the running period, lock, stage of heads, and course.
#[derive(Clone, Copy)]
pub struct Run {
    pub base: u64,
    pub t: u64,
    pub tally: Tally,
    pub lock: Lock,
    pub stage: Stage,
    pub course: Course,
}

// The statistics of a period, after the lock rule: the first greatest accumulator and where it stood, the sum of all, the locked offset, whether the
// odd heads carry Ssync, as far as is known, and the counters of the marks.
#[derive(Clone, Copy)]
pub struct SyncStats {
    pub peak: u32,
    pub peak_pos: u16,
    pub sum: u64,
    pub offset: Option<u16>,
    pub ssync_odd: bool,
    pub stray_markers: u32,
    pub missed_markers: u32,
}

// A loss tells the position of the restart.
#[derive(Clone, Copy)]
pub enum Event {
    Nothing,
    Head(Head),
    Period(SyncStats),
    Lost(u64),
}

// In order, from the first place on. Three named places and no array of Options: the claims of sync_tie name each, and an event says itself whether it
// is one.
#[derive(Clone, Copy)]
pub struct Events {
    pub first: Event,
    pub second: Event,
    pub third: Event,
}

// What the symbol stores: nothing, the accumulator of its position, or zeros in all of them and in the window.
#[derive(Clone, Copy)]
pub enum Stores {
    Nothing,
    One(u32),
    Zeros,
}

// The correlations at the last position and its accumulator; zeros before the first and after a loss.
#[derive(Clone, Copy)]
pub struct LastCorr {
    pub both: Both,
    pub level: u32,
}

#[derive(Clone, Copy)]
pub struct Step {
    pub run: Run,
    pub stores: Stores,
    pub last: LastCorr,
    pub events: Events,
}
