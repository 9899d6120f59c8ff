// Angles and turned symbols, which carrier and phase share: `wrapping` sums of angles, `step_angle` of chain/phase.rs, and the product with
// e^-jφ of `rotate` and `correct`. A full turn is 2^32.
#![tactic(auto)]

pub mod plain;
pub mod ranged;

// A pair I, Q.
#[derive(Clone, Copy)]
pub struct Symbol {
    pub i: i16,
    pub q: i16,
}
