// The slot sync, after `SlotSync` of chain/sync.rs. The state goes in by value and comes back; the 9,296 accumulators are lent, and so are the
// two words, as 24 pairs each, I before Q.
#![tactic(auto)]

pub mod plain;
pub mod ranged;
mod refusals;

ghost use Rattle.std.specs.Prelude.{◌≡◌};
ghost use Rattle.sync.specs.Answers.{new_answer, new_acc, push_answer, push_acc, restart_answer, restart_acc};

use refusal::{Refusal, Refused};
use sync_step::{Events, LastCorr, Run};

// The last 24 symbols, oldest first, and all else. The window is flat, as the loop over it needs it.
#[derive(Clone, Copy)]
pub struct SlotSync {
    pub win: [i16; 48],
    pub run: Run,
}

// What a symbol that is taken leaves and tells.
#[derive(Clone, Copy)]
pub struct Pushed {
    pub sync: SlotSync,
    pub last: LastCorr,
    pub events: Events,
}

// A sync whose first symbol stands at a position. It is answered where it is refused too.
#[tactic(auto, using(laws::specs::Choice::cases), unfolding(crate::specs::Answers::new_answer, crate::specs::Answers::new_acc))]
pub fn new(at: u64, acc: &mut [u32]) -> Result<SlotSync, Refused<SlotSync>>
    ensures { (result ≡ new_answer at acc.old) × (acc.new ≡ new_acc acc.old) }
{
    let state = plain::started(at, None);
    if acc.len() != 9296 {
        return Err(Refused {
            why: Refusal::Stores,
            state,
        });
    }
    plain::clear(acc);
    Ok(state)
}

// One symbol.
pub fn push(
    s: SlotSync,
    i: i16,
    q: i16,
    f: [i8; 48],
    w: [i8; 48],
    acc: &mut [u32],
) -> Result<Pushed, Refused<SlotSync>>
    ensures { (result ≡ push_answer s i q f w acc.old) × (acc.new ≡ push_acc s i q f w acc.old) }
{
    match refusals::push_refusal(acc.len(), &f, &w, s.run) {
        Ok(()) => Ok(ranged::accepted(s, i, q, &f, &w, acc)),
        Err(why) => Err(Refused { why, state: s }),
    }
}

// The sync started anew at a position, not before the next symbol's, with the last frame record.
pub fn restart(s: SlotSync, at: u64, acc: &mut [u32]) -> Result<SlotSync, Refused<SlotSync>>
    ensures { (result ≡ restart_answer s at acc.old) × (acc.new ≡ restart_acc s at acc.old) }
{
    match refusals::restart_refusal(acc.len(), at, s.run) {
        Ok(()) => {
            plain::clear(acc);
            Ok(plain::started(at, s.run.course.last))
        }
        Err(why) => Err(Refused { why, state: s }),
    }
}
