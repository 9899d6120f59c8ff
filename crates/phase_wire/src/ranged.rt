// For programs, which prove that the numbers are there.
ghost use Rattle.std.specs.Prelude.{◌≡◌, ◌+◌, ◌≤◌};
ghost use Rattle.phase_wire.specs.Given.{head_of};

use sync_heads::Head;
use wire::Field;

// The head of the ten numbers from k on.
pub fn head_at(p: &[u64; 24], k: usize) -> Head
    requires { k + 10 ≤ 24 }
    ensures { result ≡ head_of p.now k }
{
    Head {
        at: p[k],
        word: slot_wire::word_of(p[k + 1]),
        corr: slot_wire::ranged::corr_at(p, k + 7),
        theta: u32::of_bits(p[k + 2]),
        amp: i64::of_bits(p[k + 3]),
        slot: slot_wire::ranged::slot_at(p, k + 4),
        nco_phase: u32::of_bits(p[k + 9]),
    }
}
