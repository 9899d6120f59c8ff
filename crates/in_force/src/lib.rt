// The constellation and the scale that a frame is demapped with, after `InForce` of chain/demap.rs: which sets are learned, the noise figure
// and its scale. The points stand in two lent slices of 124 i16, learned and nominal, each with the sets of 1 to 5 bits in turn.
#![tactic(auto)]

pub mod plain;
pub mod ranged;
mod refusals;

ghost use Rattle.std.specs.Prelude.{◌≡◌};
ghost use Rattle.in_force.specs.InForce.{default_force};
ghost use Rattle.in_force.specs.Answers.{next_answer, next_slice, points_in_force, lent};

use learn::Learn;
use refusal::{Refusal, Refused};

// learned: whether the set of so many bits has its own points. They stand in lent memory, since a rule of the project keeps no heap, so that a
// flag says it and no Option holds them.
#[derive(Clone, Copy)]
pub struct InForce {
    pub learned: [bool; 5],
    pub n0: i64,
    pub k: i64,
    pub from: Option<u32>,
}

// What is in force, and what was learned as it was handed in.
#[derive(Clone, Copy)]
pub struct Renewed {
    pub in_force: InForce,
    pub learn: Learn,
}

// Before the first frame: nominal points, and the noise of 13 dB.
pub fn default() -> InForce
    ensures { result ≡ default_force }
{
    InForce {
        learned: [false; 5],
        n0: 52556,
        k: demap::ranged::scale(52556),
        from: None,
    }
}

// What a frame's pilots and noise give the next frame; its learned points go into the slice.
pub fn next(
    f: InForce,
    l: Learn,
    frame: u32,
    learned: &mut [i16],
) -> Result<Renewed, Refused<Renewed>>
    ensures { (result ≡ next_answer f l frame learned.old) × (learned.new ≡ next_slice f l learned.old) }
{
    match refusals::next(f, l, learned.len()) {
        Ok(()) => Ok(Renewed {
            in_force: ranged::renewed(f, l, frame, learned),
            learn: l,
        }),
        Err(why) => Err(Refused {
            why,
            state: Renewed {
                in_force: f,
                learn: l,
            },
        }),
    }
}

// The points of a set: a part of one of the two slices, not copied. The flags say which sets are learned, since the points are the caller's memory.
pub fn points_in_force<'a>(
    learned: &'a [i16],
    nominal: &'a [i16],
    flags: [bool; 5],
    bits: usize,
) -> Result<&'a [i16], Refusal>
    ensures { lent result ≡ points_in_force learned.now nominal.now flags bits }
{
    plain::sets_refusal(learned.len(), nominal.len(), bits)?;
    let n = learn::ranged::labels(bits);
    let s = 2 * (n - 2);
    let e = s + 2 * n;
    if flags[bits - 1] {
        Ok(&learned[s..e])
    } else {
        Ok(&nominal[s..e])
    }
}
