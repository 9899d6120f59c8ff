// Training sums, after `train` of chain/eq.rs: what one training symbol adds, and the ranges of sums.
#![tactic(auto)]

pub mod plain;
pub mod ranged;
mod ranges;
