// Carrier, heads and slot phase as numbers of calls and answers, for the replay programs.
#![tactic(auto)]

pub mod ranged;
pub mod told;

ghost use Rattle.std.specs.Prelude.{◌≡◌};
ghost use Rattle.phase_wire.specs.Given.{trail_of, nco_of, phase_of};

use carrier::{Nco, Steps};
use phase::Held;
use wire::Field;

// What may be absent stands behind a number that is 0 where it is: no plainer by a function for this and `phase_at`, which read other fields.
fn trail_at(p: &[u64; 24]) -> Option<Steps>
    ensures { result ≡ trail_of p.now }
{
    if p[3] == 0 {
        None
    } else {
        Some(Steps {
            last_ss: u32::of_bits(p[4]),
            sum: i64::of_bits(p[5]),
            steps: u32::of_bits(p[6]),
        })
    }
}

// The carrier of numbers 1 to 6.
pub fn nco_at(p: &[u64; 24]) -> Nco
    ensures { result ≡ nco_of p.now }
{
    Nco {
        phase: u32::of_bits(p[1]),
        freq: i32::of_bits(p[2]),
        trail: trail_at(p),
    }
}

// The slot's state of numbers 1 to 12.
pub fn phase_at(p: &[u64; 24]) -> Option<Held>
    ensures { result ≡ phase_of p.now }
{
    if p[1] == 0 {
        None
    } else {
        Some(Held {
            head: ranged::head_at(p, 2),
            count: u32::of_bits(p[12]),
        })
    }
}
