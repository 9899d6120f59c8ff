// What a corrected slot gives: aligned symbols, trainings, soft bits. What it means stands in specs/.
#![tactic(auto)]

mod bits;
mod groups;
pub mod ranged;

use frame::Back;

// The loaded constellation: 2^bits points as pairs in the order of their labels, zeros behind them. Before a load bits is 0.
// Bits and numbers stand beside each other: the memory is fixed for any bits, since a rule of the project keeps no heap.
#[derive(Clone, Copy)]
pub struct Points {
    pub bits: u8,
    pub points: [i16; 64],
    pub k: u32,
}

// Aligned symbols one after another: position and slot index of the first, how many, and the soft bits of each main symbol among them.
#[derive(Clone, Copy)]
pub struct AlignedRun {
    pub at: u64,
    pub j: u16,
    pub count: u16,
    pub bits: u8,
}

// Those that had waited, and those of the slot that was corrected.
#[derive(Clone, Copy)]
pub struct Runs {
    pub tail: AlignedRun,
    pub body: AlignedRun,
}

// What a slot leaves and tells.
#[derive(Clone, Copy)]
pub struct Given {
    pub back: Back,
    pub runs: Runs,
}

// The back within a slot, and the place of the next soft bit.
#[derive(Clone, Copy)]
struct Begun {
    back: Back,
    place: usize,
}

// Symbols 29 + from on, so many, of which the first so many let out main symbols.
#[derive(Clone, Copy)]
struct Stretch {
    from: usize,
    symbols: usize,
    mains: usize,
}
