// Quiet symbols, which tell nothing: how many come for sure, and what each does. The receiver's `feed` takes them in a short loop.
#![tactic(auto)]

pub mod ranged;
mod reach;
