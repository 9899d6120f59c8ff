// For programs, which prove that the numbers are there.
#![tactic(auto, unfolding(crate::specs::Slots::slot_of, crate::specs::Slots::corr_of))]

ghost use Rattle.std.specs.Prelude.{◌≡◌, ◌+◌, ◌≤◌};
ghost use Rattle.slot_wire.specs.Slots.{slot_of, corr_of};

use sync_corr::Corr;
use sync_heads::SlotNumber;

// The slot of the three numbers from k on.
pub fn slot_at(p: &[u64; 24], k: usize) -> Option<SlotNumber>
    requires { k + 3 ≤ 24 }
    ensures { result ≡ slot_of p.now k }
{
    crate::slot(p[k], p[k + 1], p[k + 2])
}

// The correlation of two numbers.
pub fn corr_at(p: &[u64; 24], k: usize) -> Corr
    requires { k + 2 ≤ 24 }
    ensures { result ≡ corr_of p.now k }
{
    crate::corr(p[k], p[k + 1])
}
