// What the program keeps from call to call besides the stores, and what a call gives.
ghost use Rattle.std.specs.Prelude.{◌≡◌};
ghost use Rattle.receiver_calls.specs.Kept.{with_receiver, with_played, with_words, turned};

use receiver::Receiver;
use sums::Sums;
use sync_step::Events;

// The sums are those that ended last, or that a call of the equaliser's kept; the events are those of the last play.
#[derive(Clone, Copy)]
pub struct Kept {
    pub receiver: Receiver,
    pub sums: Sums,
    pub f: [i8; 48],
    pub s: [i8; 48],
    pub events: Events,
}

#[derive(Clone, Copy)]
pub struct Turn {
    pub kept: Kept,
    pub told: [u64; 24],
}

// Another receiver, and other sums.
pub(crate) fn with_receiver(k: Kept, receiver: Receiver, sums: Sums) -> Kept
    ensures { result ≡ with_receiver k receiver sums }
{
    Kept {
        receiver,
        sums,
        ..k
    }
}

// Another receiver, and other events.
pub(crate) fn with_played(k: Kept, receiver: Receiver, events: Events) -> Kept
    ensures { result ≡ with_played k receiver events }
{
    Kept {
        receiver,
        events,
        ..k
    }
}

pub(crate) fn with_words(k: Kept, f: [i8; 48], s: [i8; 48]) -> Kept
    ensures { result ≡ with_words k f s }
{
    Kept { f, s, ..k }
}

pub fn turned(kept: Kept, told: [u64; 24]) -> Turn
    ensures { result ≡ turned kept told }
{
    Turn { kept, told }
}
