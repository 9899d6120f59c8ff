// What a frame's pilots and noise samples teach, after `Learn` of chain/demap.rs. The state goes in by value and comes back. Its sums, and the
// lent slice that learned points are written to, hold the sets of 1 to 5 bits in turn, two numbers to a label, I before Q.
#![tactic(auto)]

mod means;
pub mod ranged;
pub mod ranges;
mod refusals;

ghost use Rattle.std.specs.Prelude.{◌≡◌};
ghost use Rattle.learn.specs.Learning.{new_learn};
ghost use Rattle.learn.specs.Answers.{pilot_answer, noise_answer, points_answer, points_slice, figure_answer};

use refusal::{Refusal, Refused};

// Two sums and a count to a label; the sum and the number of the noise samples.
// They are flat arrays, as `new_learn` and `learn_in_range` name them. A rule of the project keeps no heap.
#[derive(Clone, Copy)]
pub struct Learn {
    pub sum: [i64; 124],
    pub count: [u32; 62],
    pub noise: i64,
    pub samples: u32,
}

// What was learned as it was handed in, and whether the set's points are in the slice: they stand in lent memory, since a rule of the project
// keeps no heap, so that a flag says it and no Option holds them.
#[derive(Clone, Copy)]
pub struct Pointed {
    pub learn: Learn,
    pub learned: bool,
}

// The figure, and what was learned as it was handed in.
#[derive(Clone, Copy)]
pub struct Figured {
    pub learn: Learn,
    pub figure: Option<i64>,
}

pub fn new() -> Learn
    ensures { result ≡ new_learn }
{
    Learn {
        sum: [0i64; 124],
        count: [0u32; 62],
        noise: 0,
        samples: 0,
    }
}

// Pilot t of a slot of so many bits, its sign removed.
pub fn pilot(l: Learn, bits: usize, t: usize, zi: i16, zq: i16) -> Result<Learn, Refused<Learn>>
    ensures { result ≡ pilot_answer l bits t zi zq }
{
    match refusals::pilot(l, bits, t) {
        Ok(()) => Ok(ranged::piloted(l, ranged::place(bits, t), zi, zq)),
        Err(why) => Err(Refused { why, state: l }),
    }
}

// A noise sample: a symbol with its least metric.
pub fn noise(l: Learn, yi: i16, yq: i16, best: i64) -> Result<Learn, Refused<Learn>>
    ensures { result ≡ noise_answer l yi yq best }
{
    match refusals::noise(l, best) {
        Ok(()) => Ok(ranged::sampled(l, yi, yq, best)),
        Err(why) => Err(Refused { why, state: l }),
    }
}

// The learned points of a set into its part of the slice, if every label has a pilot.
pub fn points(l: Learn, bits: usize, learned: &mut [i16]) -> Result<Pointed, Refused<Learn>>
    ensures { (result ≡ points_answer l bits learned.old) × (learned.new ≡ points_slice l bits learned.old) }
{
    match refusals::points(l, bits, learned.len()) {
        Ok(()) => Ok(Pointed {
            learn: l,
            learned: ranged::pointed(l, bits, learned),
        }),
        Err(why) => Err(Refused { why, state: l }),
    }
}

pub fn n0(l: Learn) -> Result<Figured, Refused<Learn>>
    ensures { result ≡ figure_answer l }
{
    if !ranges::in_range(l) {
        return Err(Refused {
            why: Refusal::Arithmetic,
            state: l,
        });
    }
    let figure = if l.samples == 0 {
        None
    } else {
        Some(ranged::mean_noise(l))
    };
    Ok(Figured { learn: l, figure })
}
