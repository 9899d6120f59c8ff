// For programs, which prove that the numbers are there.
ghost use Rattle.std.specs.Prelude.{◌≡◌, ◌+◌, ◌≤◌};
ghost use Rattle.frame_wire.specs.Line.{meta_at};

use frame_line::Meta;
use wire::Field;

// The symbol that waits of the six numbers from k on.
pub fn meta_at(p: &[u64; 24], k: usize) -> Meta
    requires { k + 6 ≤ 24 }
    ensures { result ≡ meta_at p.now k }
{
    Meta {
        at: p[k],
        j: u16::of_bits(p[k + 5]),
        word: slot_wire::word_of(p[k + 1]),
        slot: slot_wire::ranged::slot_at(p, k + 2),
    }
}
