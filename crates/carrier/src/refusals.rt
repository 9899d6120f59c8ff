// Refusals, in the order of document 01's table.
ghost use Rattle.std.specs.Prelude.{◌≡◌};
ghost use Rattle.carrier.specs.Answers.{rotate_refusal, head_refusal};

use crate::{Nco, plain};
use refusal::Refusal;
use sync_heads::{Head, given};

pub(crate) fn rotate(n: Nco, len: usize) -> Result<(), Refusal>
    ensures { result ≡ rotate_refusal n len }
{
    if len != 1024 {
        return Err(Refusal::Table);
    }
    if plain::in_range(n) {
        Ok(())
    } else {
        Err(Refusal::Arithmetic)
    }
}

pub(crate) fn head(n: Nco, h: Head) -> Result<(), Refusal>
    ensures { result ≡ head_refusal n h }
{
    if !plain::in_range(n) {
        return Err(Refusal::Arithmetic);
    }
    given::head(h)
}
