// Whether the numbers of a receiver's parts are in the ranges that receiver calls leave there.
#![tactic(auto)]

pub mod plain;
pub mod ranged;
