// The slot map and the training reference of a sync symbol, after `part` and `Back::symbol` of chain/frame.rs.
#![tactic(auto)]

pub mod ranged;

ghost use Rattle.std.specs.Prelude.{◌≡◌};
ghost use Rattle.frame_map.specs.Map.{part_of};
ghost use Rattle.frame_map.specs.Reference.{reference_answer};

use angles::Symbol;
use refusal::Refusal;
use sync_heads::Word;

// What stands at a place of the slot, with its index among those of its kind.
#[derive(Clone, Copy)]
pub enum SlotPart {
    Sync(u16),
    Pilot(u16),
    Main(u16),
    Tmcc(u16),
}

pub fn part(j: usize) -> Result<SlotPart, Refusal>
    ensures { result ≡ part_of j }
{
    if j < 9296 {
        Ok(ranged::part(j))
    } else {
        Err(Refusal::Arithmetic)
    }
}

// What sync symbol k of a slot with this word is trained against.
pub fn reference(word: Word, k: usize, f: [i8; 48], s: [i8; 48]) -> Result<Symbol, Refusal>
    ensures { result ≡ reference_answer word k f s }
{
    if !(sync_corr::plain::ones(&f) & sync_corr::plain::ones(&s)) {
        return Err(Refusal::Words);
    }
    if 24 <= k {
        return Err(Refusal::Arithmetic);
    }
    Ok(ranged::reference(word, k, &f, &s))
}
