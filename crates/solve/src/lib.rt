// The taps of a frame's training sums, after `solve_sums` of chain/eq.rs.
#![tactic(auto)]

mod range;
mod system;
mod taps;

ghost use Rattle.std.specs.Prelude.{◌≡◌};
ghost use Rattle.solve.specs.Answers.{solve_answer};

use refusal::Refusal;
use sums::Sums;

// The 11 taps, each a pair, with 14 fraction bits.
pub fn solve_sums(s: Sums) -> Result<[i16; 22], Refusal>
    ensures { result ≡ solve_answer s }
{
    if range::outside(s) {
        return Err(Refusal::Sums);
    }
    let x = solve_step::solve(system::system(s))?;
    Ok(taps::taps(x))
}
