// What the program keeps from call to call, and what a call gives.
use eq::Equaliser;
use sums::Sums;

// The sums are those that a solving is asked of.
#[derive(Clone, Copy)]
pub struct Kept {
    pub eq: Equaliser,
    pub sums: Sums,
}

#[derive(Clone, Copy)]
pub struct Turn {
    pub kept: Kept,
    pub told: [u64; 24],
}
