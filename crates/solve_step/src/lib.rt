// A linear system of 11 equations, solved in f64, after `solve` of phy eq.rs: elimination by columns, then back substitution. The matrix is
// one flat array by value; the functions that change it are lent it.
#![tactic(auto)]

mod back;
pub mod complex;
mod eliminate;
mod pivot;
pub mod ranged;
mod rows;

ghost use Rattle.std.specs.Prelude.{◌≡◌};
ghost use Rattle.solve_step.specs.Back.{solution_of};

use refusal::Refusal;

// The matrix row by row, and the right side: pairs, the real part before the imaginary part.
// C hands both over as such flat arrays (c_api), and `solution_of` names them.
#[derive(Clone, Copy)]
pub struct System {
    pub a: [f64; 242],
    pub b: [f64; 22],
}

// The 11 unknowns.
pub fn solve(s: System) -> Result<[f64; 22], Refusal>
    ensures { result ≡ solution_of s }
{
    let t = eliminate::eliminate(s)?;
    Ok(back::back(t))
}
