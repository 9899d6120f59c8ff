// What an answer of the receiver prints, in a lent buffer, for the bench program: document 01, "Capture".
#![tactic(auto)]

pub mod ranged;

// Where a page stands: the next symbol of its run, the next soft value, the next place in the buffer.
#[derive(Clone, Copy)]
pub struct Page {
    pub i: usize,
    pub v: usize,
    pub place: usize,
}
