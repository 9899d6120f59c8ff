// Why a corrected symbol is refused.
ghost use Rattle.std.specs.Prelude.{◌≡◌};
ghost use Rattle.frame.specs.Answers.{full_back, push_refusal};

use crate::{Back, plain, ranged};
use phase::Corrected;
use refusal::Refusal;

// Whether the oldest symbol is to be trained on, with the count full.
fn full(b: Back) -> bool
    ensures { result ≡ full_back b }
{
    (5 <= b.metas.count)
        & (b.metas.first.j < 24)
        & b.eq.opened
        & (10 <= b.eq.filled)
        & (4194304 <= b.eq.sums.count)
}

// An entry of a word; the state, the slot index or the gain; the position; a full count.
pub(crate) fn push(b: Back, c: Corrected, f: &[i8; 48], s: &[i8; 48]) -> Result<(), Refusal>
    ensures { result ≡ push_refusal b c f.now s.now }
{
    if !(sync_corr::plain::ones(f) & sync_corr::plain::ones(s)) {
        return Err(Refusal::Words);
    }
    if !(plain::in_range(b) & (c.j < 9296) & !fx::plain::wide(c.gain)) {
        return Err(Refusal::Arithmetic);
    }
    if 4611686018427387904 <= c.at {
        return Err(Refusal::Position);
    }
    if full(ranged::joined_to(b, c.at)) {
        return Err(Refusal::Counts);
    }
    Ok(())
}
