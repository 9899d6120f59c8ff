// What can be done with a receiver and what it is lent.
ghost use Rattle.std.specs.Prelude.{◌≡◌, true, ◌≤◌, min};
ghost use Rattle.receiver_bounds.specs.Bounds.{tally_within};
ghost use Rattle.receiver.specs.Ranges.{receiver_in_range};
ghost use Rattle.receiver_symbol.specs.Parts.{state_refusal};
ghost use Rattle.receiver_feed.specs.Turns.{calm_of, standing_by};

use receiver::Receiver;
use refusal::Refusal;

// Why no symbol can be taken, in the order of document 01's table.
pub(crate) fn standing(
    r: Receiver,
    acc: usize,
    store: usize,
    soft: usize,
    f: &[i8; 48],
    s: &[i8; 48],
    table: usize,
) -> Result<(), Refusal>
    ensures { result ≡ standing_by r acc store soft f.now s.now table }
{
    receiver_symbol::refusals::lent(acc, store, soft, f, s, table)?;
    receiver::plain::range_refusal(r)
}

fn smaller(a: usize, b: usize) -> usize
    ensures { result ≡ min a b }
{
    if a < b { a } else { b }
}

// How many of the next symbols tell nothing for sure, of those that are left.
pub(crate) fn calm(r: Receiver, left: usize) -> usize
    requires { receiver_in_range r ≡ true }
    ensures { result ≡ calm_of r left }
{
    let y = r.front.sync.run;
    if sync::plain::past_end(y.base, y.t) {
        0
    } else {
        smaller(sync_block::ranged::reach(y) - 1, left)
    }
}

// Why the state refuses the next symbol. Only the figures can have left their range: in a stretch, where the accumulators that were handed in are full.
pub(crate) fn refusal(r: Receiver) -> Result<(), Refusal>
    requires { receiver_in_range r ≡ tally_within r.front.sync.run.tally }
    ensures { result ≡ state_refusal r }
{
    if !receiver_bounds::plain::tally_within(r.front.sync.run.tally) {
        return Err(Refusal::Arithmetic);
    }
    receiver_symbol::refusals::next(r)
}

// A receiver's numbers are in range: that is known of the one handed in, and tested of one that a symbol's own call left.
pub(crate) fn still(r: Receiver, used: usize) -> bool
    requires { used ≡ 0 → receiver_in_range r ≡ true }
    ensures { result ≡ receiver_in_range r }
{
    if used == 0 {
        true
    } else {
        receiver::plain::receiver_within(r)
    }
}
