// The slot correction, after chain/phase.rs: each symbol of a slot divided by the carrier phase and amplitude between the slot's head and the
// next. The state goes in by value and comes back; the slot store, 9,296 pairs, and the carrier table are lent.
#![tactic(auto)]

pub mod plain;
pub mod ranged;
mod refusals;

ghost use Rattle.std.specs.Prelude.{◌≡◌, None};
ghost use Rattle.phase.specs.Answers.{gain_answer, restart_answer, push_answer, push_store, head_answer, correct_answer};

use angles::Symbol;
use refusal::{Refusal, Refused};
use sync_heads::{Head, SlotNumber, Word};

// The current slot's head, and how many of its symbols came. The count stands here, not with the store: that is the caller's memory, lent for a call.
#[derive(Clone, Copy)]
pub struct Held {
    pub head: Head,
    pub count: u32,
}

// A slot to correct: its head and the next, the phase step and the gain step a symbol, with 16 fraction bits, and the gain at its head.
#[derive(Clone, Copy)]
pub struct WholeSlot {
    pub head: Head,
    pub next: Head,
    pub delta: i64,
    pub gain: i64,
    pub gamma: i64,
}

// One corrected symbol.
#[derive(Clone, Copy)]
pub struct Corrected {
    pub at: u64,
    pub word: Word,
    pub slot: Option<SlotNumber>,
    pub j: u16,
    pub r: Symbol,
    pub phi: u32,
    pub gain: i64,
    pub y: Symbol,
}

// A symbol of a slot, and the slot as it was handed in.
#[derive(Clone, Copy)]
pub struct Answered {
    pub slot: WholeSlot,
    pub told: Corrected,
}

// What a head leaves: its own slot, begun, and the slot before, if it is to be corrected.
#[derive(Clone, Copy)]
pub struct Headed {
    pub phase: Option<Held>,
    pub due: Option<WholeSlot>,
}

// The gain of a head's magnitude, with 17 fraction bits.
pub fn gain_of(amp: i64) -> Result<i64, Refusal>
    ensures { result ≡ gain_answer amp }
{
    if fx::plain::wide(amp) {
        Err(Refusal::Arithmetic)
    } else {
        Ok(ranged::gain_of(amp))
    }
}

pub fn new() -> Option<Held>
    ensures { result ≡ None }
{
    None
}

// What is held is dropped.
pub fn restart(s: Option<Held>) -> Result<Option<Held>, Refused<Option<Held>>>
    ensures { result ≡ restart_answer s }
{
    if plain::in_range(s) {
        Ok(None)
    } else {
        Err(Refused {
            why: Refusal::Arithmetic,
            state: s,
        })
    }
}

// One rotated symbol of the current slot.
pub fn push(
    s: Option<Held>,
    i: i16,
    q: i16,
    store: &mut [i16],
) -> Result<Option<Held>, Refused<Option<Held>>>
    ensures { (result ≡ push_answer s store.old) × (store.new ≡ push_store s i q store.old) }
{
    match refusals::push(s, store.len()) {
        Ok(()) => Ok(ranged::pushed(s, i, q, store)),
        Err(why) => Err(Refused { why, state: s }),
    }
}

// The next head: the held slot, if whole, is to be corrected, and this head's slot starts.
pub fn head(s: Option<Held>, h: Head) -> Result<Headed, Refused<Option<Held>>>
    ensures { result ≡ head_answer s h }
{
    match refusals::head(s, h) {
        Ok(()) => Ok(Headed {
            phase: plain::begun(h),
            due: ranged::due(s, h),
        }),
        Err(why) => Err(Refused { why, state: s }),
    }
}

// Symbol j of a slot to correct.
pub fn correct(
    s: WholeSlot,
    j: usize,
    table: &[i16],
    store: &[i16],
) -> Result<Answered, Refused<WholeSlot>>
    ensures { result ≡ correct_answer s j table.now store.now }
{
    match refusals::correct(s, j, table.len(), store.len()) {
        Ok(()) => Ok(Answered {
            slot: s,
            told: ranged::corrected(s, j, table, store),
        }),
        Err(why) => Err(Refused { why, state: s }),
    }
}
