// Why a call is not taken, in the order of document 01's table.
ghost use Rattle.std.specs.Prelude.{◌≡◌};
ghost use Rattle.in_force.specs.Answers.{next_refusal};

use crate::{InForce, plain};
use learn::Learn;
use refusal::Refusal;

pub(crate) fn next(f: InForce, l: Learn, len: usize) -> Result<(), Refusal>
    ensures { result ≡ next_refusal f l len }
{
    if len != 124 {
        return Err(Refusal::Points);
    }
    if !plain::in_range(f) {
        return Err(Refusal::Arithmetic);
    }
    if !learn::ranges::in_range(l) {
        return Err(Refusal::Arithmetic);
    }
    Ok(())
}
