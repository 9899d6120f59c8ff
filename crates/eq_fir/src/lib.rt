// The equaliser's line of 11 symbols and its filter, after `push` and `output` of chain/eq.rs.
#![tactic(auto)]

pub mod ranged;
pub mod ranged_rows;

// The sums of a line's products with the four rows.
#[derive(Clone, Copy)]
struct Dots {
    rh: i32,
    rl: i32,
    ih: i32,
    il: i32,
}
