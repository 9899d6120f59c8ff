// Refusals, in the order of document 01's table.
ghost use Rattle.std.specs.Prelude.{◌≡◌};
ghost use Rattle.phase.specs.Ranges.{whole_in_range};
ghost use Rattle.phase.specs.Answers.{held_past, past_end, push_refusal, head_refusal, place_past, correct_refusal};

use crate::{Held, WholeSlot, plain};
use refusal::Refusal;
use sync_heads::{Head, given};

// The next symbol of a held slot would stand at 2^62 or more.
fn held_past(x: Held) -> bool
    ensures { result ≡ held_past x }
{
    (x.count < 9296) && given::past(x.head.at, x.count as u64)
}

fn past_end(s: Option<Held>) -> bool
    ensures { result ≡ past_end s }
{
    s.is_some_and(held_past)
}

pub(crate) fn push(s: Option<Held>, len: usize) -> Result<(), Refusal>
    ensures { result ≡ push_refusal s len }
{
    if len != 18592 {
        return Err(Refusal::Stores);
    }
    if !plain::in_range(s) {
        return Err(Refusal::Arithmetic);
    }
    if past_end(s) {
        Err(Refusal::Position)
    } else {
        Ok(())
    }
}

pub(crate) fn head(s: Option<Held>, h: Head) -> Result<(), Refusal>
    ensures { result ≡ head_refusal s h }
{
    if !plain::in_range(s) {
        return Err(Refusal::Arithmetic);
    }
    given::head(h)
}

fn whole_in_range(s: WholeSlot) -> bool
    ensures { result ≡ whole_in_range s }
{
    !fx::plain::wide(s.head.amp)
        & !fx::plain::wide(s.next.amp)
        & (-15139574784 <= s.delta)
        & (s.delta <= 15139574777)
        & (0 <= s.gain)
        & (s.gain <= 71179699)
        & (-501810748 <= s.gamma)
        & (s.gamma <= 501810748)
}

// Symbol j, or the next head, would stand at 2^62 or more.
fn place_past(s: WholeSlot, j: usize) -> bool
    ensures { result ≡ place_past s j }
{
    given::past(s.head.at, j as u64) | (0x4000_0000_0000_0000 <= s.next.at)
}

pub(crate) fn correct(s: WholeSlot, j: usize, table: usize, store: usize) -> Result<(), Refusal>
    ensures { result ≡ correct_refusal s j table store }
{
    if store != 18592 {
        return Err(Refusal::Stores);
    }
    if table != 1024 {
        return Err(Refusal::Table);
    }
    if !(whole_in_range(s) & (j < 9296)) {
        return Err(Refusal::Arithmetic);
    }
    if place_past(s, j) {
        return Err(Refusal::Position);
    }
    Ok(())
}
