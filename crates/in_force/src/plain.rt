// What the crates above share and needs nothing of its caller: the part that the chooser answers, for callers that need no refusal, and its refusal alone.
ghost use Rattle.std.specs.Prelude.{◌≡◌};
ghost use Rattle.in_force.specs.InForce.{force_in_range};
ghost use Rattle.in_force.specs.Answers.{part_in_force, sets_refusal};

use crate::InForce;
use refusal::Refusal;

pub(crate) fn in_range(f: InForce) -> bool
    ensures { result ≡ force_in_range f }
{
    (-8589934592 <= f.n0) & (f.n0 <= 10737418240) & (0 <= f.k) & (f.k <= 16777216)
}

// Why there are no points of so many bits in slices of these lengths.
pub fn sets_refusal(learned: usize, nominal: usize, bits: usize) -> Result<(), Refusal>
    ensures { result ≡ sets_refusal learned nominal bits }
{
    if (learned != 124) | ((nominal != 124) | ((bits < 1) | (5 < bits))) {
        return Err(Refusal::Points);
    }
    Ok(())
}

// The part of a set; an empty one where it is refused.
pub fn part<'a>(learned: &'a [i16], nominal: &'a [i16], flags: [bool; 5], bits: usize) -> &'a [i16]
    ensures { result.now ≡ part_in_force learned.now nominal.now flags bits }
{
    match crate::points_in_force(learned, nominal, flags, bits) {
        Ok(points) => points,
        Err(_) => &nominal[0..0],
    }
}
