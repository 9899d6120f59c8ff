// Slots as the numbers of a call hold them, each taken to the width of its field by its low bits.
ghost use Rattle.std.specs.Prelude.{◌≡◌};
ghost use Rattle.phase_replay.specs.Given.{beside, whole_of};

use phase::WholeSlot;
use sync_heads::Head;
use wire::Field;

// The same head at another place, with another magnitude.
fn beside(h: Head, at: u64, amp: i64) -> Head
    ensures { result ≡ beside h at amp }
{
    Head { at, amp, ..h }
}

// The slot of numbers 1 to 15. Of its next head a correction reads no more than place and magnitude.
pub(crate) fn whole_at(p: &[u64; 24]) -> WholeSlot
    ensures { result ≡ whole_of p.now }
{
    let head = phase_wire::ranged::head_at(p, 1);
    WholeSlot {
        head,
        next: beside(head, p[11], i64::of_bits(p[12])),
        delta: i64::of_bits(p[13]),
        gain: i64::of_bits(p[14]),
        gamma: i64::of_bits(p[15]),
    }
}
