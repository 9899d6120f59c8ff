// The receiver: the stages wired as document 01, "The receiver", says. What each call means stands in specs/.
#![tactic(auto)]

mod loads;
pub mod plain;
mod refusals;
mod starts;
pub mod told;

ghost use Rattle.std.specs.Prelude.{◌≡◌};
ghost use Rattle.receiver.specs.Answers.{new_answer, new_acc, points_answer, taps_answer, open_answer, end_answer, restart_answer, restart_acc};

use carrier::Nco;
use frame::Back;
use phase::{Held, WholeSlot};
use receiver_slot::{Points, Runs};
use refusal::{Refusal, Refused};
use sums::Sums;
use sync::SlotSync;
use sync_heads::FrameHead;
use sync_step::Events;

// What a loss or a restart keeps.
#[derive(Clone, Copy)]
pub struct Kept {
    pub phase: u32,
    pub freq: i32,
    pub taps: [i16; 22],
    pub from: Option<u32>,
    pub points: Points,
    pub last: Option<FrameHead>,
}

// What every symbol moves.
#[derive(Clone, Copy)]
pub struct Front {
    pub nco: Nco,
    pub sync: SlotSync,
    pub phase: Option<Held>,
}

// The alignment moves with each corrected slot, the points with a load.
#[derive(Clone, Copy)]
pub struct Receiver {
    pub front: Front,
    pub back: Back,
    pub points: Points,
}

// What the heads of one call leave of carrier and slot phase, and the slot that they complete.
#[derive(Clone, Copy)]
pub struct Listened {
    pub nco: Nco,
    pub phase: Option<Held>,
    pub due: Option<WholeSlot>,
}

// What an accepted symbol answers.
#[derive(Clone, Copy)]
pub struct Answer {
    pub receiver: Receiver,
    pub events: Events,
    pub runs: Runs,
}

// What an end of sums answers: the sums, if there were open ones.
#[derive(Clone, Copy)]
pub struct Ended {
    pub receiver: Receiver,
    pub sums: Option<Sums>,
}

// A receiver whose first symbol stands at a position, with a carrier step.
pub fn new(at: u64, step: i32, acc: &mut [u32]) -> Result<Receiver, Refused<Receiver>>
    ensures { (result ≡ new_answer at step acc.old) × (acc.new ≡ new_acc acc.old) }
{
    let r = plain::started(at, starts::new_kept(step));
    if acc.len() != 9296 {
        return Err(Refused {
            why: Refusal::Stores,
            state: r,
        });
    }
    sync::plain::clear(acc);
    Ok(r)
}

// 2^bits points as pairs, in the order of their labels, and the scale of the soft bits.
pub fn load_points(
    r: Receiver,
    bits: u8,
    points: &[i16],
    k: i64,
) -> Result<Receiver, Refused<Receiver>>
    ensures { result ≡ points_answer r bits points.now k }
{
    match refusals::load_points(r, bits, points.len(), k) {
        Ok(()) => Ok(loads::with_points(r, loads::loaded_points(bits, points, k))),
        Err(why) => Err(Refused { why, state: r }),
    }
}

// Taps that were solved from a frame's sums.
pub fn load_taps(r: Receiver, taps: [i16; 22], frame: u32) -> Result<Receiver, Refused<Receiver>>
    ensures { result ≡ taps_answer r taps frame }
{
    loads::eq_answer(r, eq::plain::loaded(r.back.eq, taps, frame))
}

// The receiver started anew at a position, not before the next symbol's, with its kept values.
pub fn restart(r: Receiver, at: u64, acc: &mut [u32]) -> Result<Receiver, Refused<Receiver>>
    ensures { (result ≡ restart_answer r at acc.old) × (acc.new ≡ restart_acc r at acc.old) }
{
    match refusals::restart(r, at, acc.len()) {
        Ok(()) => {
            sync::plain::clear(acc);
            Ok(plain::started(at, plain::kept_of(r)))
        }
        Err(why) => Err(Refused { why, state: r }),
    }
}

// Sums of a frame, from nothing; open ones are dropped.
pub fn open_sums(r: Receiver, frame: u32) -> Result<Receiver, Refused<Receiver>>
    ensures { result ≡ open_answer r frame }
{
    loads::eq_answer(r, eq::plain::with_sums(r.back.eq, true, sums::new(frame)))
}

// The open sums, which are then closed.
pub fn end_sums(r: Receiver) -> Result<Ended, Refused<Receiver>>
    ensures { result ≡ end_answer r }
{
    match plain::range_refusal(r) {
        Ok(()) => Ok(loads::ended(r)),
        Err(why) => Err(Refused { why, state: r }),
    }
}
