// Heads: the word of a reading, the majority, marks and frame numbers, after `head_at`, `word_head` and `new_frame` of chain/sync.rs.
#![tactic(auto)]

mod frames;
pub mod given;
pub mod plain;
pub mod ranged;
mod words;

use sync_corr::{Both, Corr};

// A window at the locked position: its first symbol's position, and its correlations.
#[derive(Clone, Copy)]
pub struct Reading {
    pub at: u64,
    pub both: Both,
}

// Which heads carry Ssync (the odd ones or the even ones), whether the next one does, and the last such correlation.
#[derive(Clone, Copy)]
pub struct Parity {
    pub odd: bool,
    pub due: bool,
    pub last: Corr,
}

// Head zero is held until head one tells the parity.
#[derive(Clone, Copy)]
pub enum Stage {
    Before,
    First(Reading),
    Known(Parity),
}

// A slot's number within its frame, and the frame's number.
#[derive(Clone, Copy)]
pub struct SlotNumber {
    pub number: u8,
    pub frame: u32,
}

// Where a frame begins, and its number.
#[derive(Clone, Copy)]
pub struct FrameHead {
    pub at: u64,
    pub frame: u32,
}

// What the heads so far come to: the majority of the F words' signs, slot and frame once a mark told them, the last frame head, and the marks that
// were missed or strayed.
#[derive(Clone, Copy)]
pub struct Course {
    pub majority: i32,
    pub slot: Option<SlotNumber>,
    pub last: Option<FrameHead>,
    pub misses: u32,
    pub stray: u32,
    pub missed: u32,
}

#[derive(Clone, Copy)]
pub enum Word {
    Ssync,
    Fsync,
    NotFsync,
}

#[derive(Clone, Copy)]
pub struct Head {
    pub at: u64,
    pub word: Word,
    pub corr: Corr,
    pub theta: u32,
    pub amp: i64,
    pub slot: Option<SlotNumber>,
    pub nco_phase: u32,
}

// What a word is read as.
#[derive(Clone, Copy)]
pub struct Said {
    pub word: Word,
    pub corr: Corr,
}

// The course after a head, and whether it was the second mark missed in a row. A flag and no Result: a loss, too, hands on the course, whose last
// frame head the restart keeps; so do the two below.
#[derive(Clone, Copy)]
pub struct Marked {
    pub lost: bool,
    pub course: Course,
}

// What one head makes of the course, and the head as told.
#[derive(Clone, Copy)]
pub struct Told {
    pub lost: bool,
    pub course: Course,
    pub head: Option<Head>,
}

// What a reading makes of stage and course, and the heads that it tells, in order. Two named Options and no array: the rules of the story speak of
// each head by its name.
#[derive(Clone, Copy)]
pub struct Taken {
    pub lost: bool,
    pub stage: Stage,
    pub course: Course,
    pub first: Option<Head>,
    pub second: Option<Head>,
}
