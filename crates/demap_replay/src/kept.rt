// What the program keeps from call to call, and what a call gives.
ghost use Rattle.std.specs.Prelude.{◌≡◌};
ghost use Rattle.demap_replay.specs.Kept.{with_learn, with_force, turned};

use in_force::InForce;
use learn::Learn;

#[derive(Clone, Copy)]
pub struct Kept {
    pub learn: Learn,
    pub force: InForce,
}

#[derive(Clone, Copy)]
pub struct Turn {
    pub kept: Kept,
    pub told: [u64; 24],
}

// Another state of learning.
pub(crate) fn with_learn(k: Kept, l: Learn) -> Kept
    ensures { result ≡ with_learn k l }
{
    Kept { learn: l, ..k }
}

// Another constellation in force.
pub(crate) fn with_force(k: Kept, f: InForce) -> Kept
    ensures { result ≡ with_force k f }
{
    Kept { force: f, ..k }
}

pub(crate) fn turned(k: Kept, told: [u64; 24]) -> Turn
    ensures { result ≡ turned k told }
{
    Turn { kept: k, told }
}
