// Tests of what the calls of the crates above are given: a head, and a place that a count of symbols moves on.
ghost use Rattle.std.specs.Prelude.{◌≡◌, ◌+◌, ◌^◌, leb};
ghost use Rattle.sync_heads.specs.Given.{given_refusal};

use crate::Head;
use refusal::Refusal;

// Why a head is refused that a caller gives: an `amp` of size over 2^60, or a place at 2^62 or more.
pub fn head(h: Head) -> Result<(), Refusal>
    ensures { result ≡ given_refusal h }
{
    if fx::plain::wide(h.amp) {
        return Err(Refusal::Arithmetic);
    }
    if 0x4000_0000_0000_0000 <= h.at {
        return Err(Refusal::Position);
    }
    Ok(())
}

// at + n is 2^62 or more; it may pass 64 bits.
pub fn past(at: u64, n: u64) -> bool
    ensures { result ≡ leb (2 ^ 62) (at + n) }
{
    0x4000_0000_0000_0000 <= at.saturating_add(n)
}
