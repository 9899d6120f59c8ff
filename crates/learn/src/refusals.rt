// Why a call is not taken: in the order of document 01's table.
ghost use Rattle.std.specs.Prelude.{◌≡◌};
ghost use Rattle.learn.specs.Answers.{pilot_refusal, noise_refusal, points_refusal};

use crate::{Learn, ranged, ranges};
use refusal::Refusal;

pub(crate) fn pilot(l: Learn, bits: usize, t: usize) -> Result<(), Refusal>
    ensures { result ≡ pilot_refusal l bits t }
{
    if (bits < 1) | (5 < bits) {
        return Err(Refusal::Points);
    }
    if !ranges::in_range(l) {
        return Err(Refusal::Arithmetic);
    }
    if 31 < t {
        return Err(Refusal::Arithmetic);
    }
    if 67108864 <= l.count[ranged::place(bits, t)] {
        return Err(Refusal::Counts);
    }
    Ok(())
}

pub(crate) fn noise(l: Learn, best: i64) -> Result<(), Refusal>
    ensures { result ≡ noise_refusal l best }
{
    if !ranges::in_range(l) {
        return Err(Refusal::Arithmetic);
    }
    if (best < -8589934592) | (8589934592 < best) {
        return Err(Refusal::Arithmetic);
    }
    if 67108864 <= l.samples {
        return Err(Refusal::Counts);
    }
    Ok(())
}

pub(crate) fn points(l: Learn, bits: usize, len: usize) -> Result<(), Refusal>
    ensures { result ≡ points_refusal l bits len }
{
    if (len != 124) | ((bits < 1) | (5 < bits)) {
        return Err(Refusal::Points);
    }
    if !ranges::in_range(l) {
        return Err(Refusal::Arithmetic);
    }
    Ok(())
}
