// Many symbols in one call: those that tell nothing go by a short loop, each other one is a symbol's call. What it means stands in crate receiver,
// specs/Feed.antt.
#![tactic(auto)]

mod quiet;
mod ready;
mod stretch;
mod turns;

ghost use Rattle.std.specs.Prelude.{◌≡◌};
ghost use Rattle.receiver.specs.Feed.{feed_of};
ghost use Rattle.receiver_feed.specs.Answers.{feed_answer};

use receiver::Receiver;
use receiver_slot::Runs;
use refusal::{Refusal, Refused};
use sync_lock::Tally;
use sync_step::Events;

// The number of symbols used; events and runs are those of the last of them.
#[derive(Clone, Copy)]
pub struct Fed {
    pub used: usize,
    pub receiver: Receiver,
    pub events: Events,
    pub runs: Runs,
}

// How a turn leaves a feed: it goes on, a symbol has told something, or the next one would be refused.
#[derive(Clone, Copy)]
enum Goes {
    On,
    Told(Events, Runs),
    Refused(Refusal),
}

// Where a feed stands.
#[derive(Clone, Copy)]
struct Turn {
    used: usize,
    receiver: Receiver,
    goes: Goes,
}

// What symbols that tell nothing leave, besides window and stores.
#[derive(Clone, Copy)]
struct Moved {
    taken: usize,
    tally: Tally,
    phase: u32,
}

// A receiver that went through some.
#[derive(Clone, Copy)]
struct Passed {
    taken: usize,
    receiver: Receiver,
}

// The symbols of a slice, I before Q, up to and with the first that tells anything, or before the first that would be refused. A refusal is told where that is
// the first of all.
pub fn feed(
    r: Receiver,
    bytes: &[i8],
    f: [i8; 48],
    s: [i8; 48],
    table: &[i16],
    acc: &mut [u32],
    store: &mut [i16],
    soft: &mut [i8],
) -> Result<Fed, Refused<Receiver>>
    ensures { (result ≡ feed_answer r (record { bytes = bytes.now; f = f; s = s; table = table.now }) (record { acc = acc.old; store = store.old; soft = soft.old })) × (acc.new ≡ (feed_of r (record { bytes = bytes.now; f = f; s = s; table = table.now }) (record { acc = acc.old; store = store.old; soft = soft.old })).lent.acc) × (store.new ≡ (feed_of r (record { bytes = bytes.now; f = f; s = s; table = table.now }) (record { acc = acc.old; store = store.old; soft = soft.old })).lent.store) × (soft.new ≡ (feed_of r (record { bytes = bytes.now; f = f; s = s; table = table.now }) (record { acc = acc.old; store = store.old; soft = soft.old })).lent.soft) }
{
    match ready::standing(r, acc.len(), store.len(), soft.len(), &f, &s, table.len()) {
        Ok(()) => {
            let rows = sync_corr::plain::rows(&f, &s);
            turns::answer(turns::all(r, bytes, &f, &s, &rows, table, acc, store, soft))
        }
        Err(why) => Err(Refused { why, state: r }),
    }
}
