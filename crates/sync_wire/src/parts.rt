// Parts of a run from their numbers, wherever a call holds these: the numbers are those of the bytes of calls.
#![tactic(auto, using(laws::specs::Choice::cases), unfolding(crate::specs::Parts::tally_by, crate::specs::Parts::lock_by, crate::specs::Parts::stage_by, crate::specs::Parts::record_by, crate::specs::Parts::course_by))]

ghost use Rattle.std.specs.Prelude.{◌≡◌};
ghost use Rattle.sync_wire.specs.Parts.{tally_by, lock_by, stage_by, record_by, course_by};

use sync_heads::{Course, FrameHead, Parity, Reading, SlotNumber, Stage};
use sync_lock::{Lock, Tally};
use wire::Field;

pub fn tally(peak: u64, place: u64, sum: u64) -> Tally
    ensures { result ≡ tally_by peak place sum }
{
    Tally {
        peak: u32::of_bits(peak),
        place: u16::of_bits(place),
        sum,
    }
}

// Whether it is locked, candidate or offset, count or misses.
pub fn lock(locked: u64, place: u64, count: u64) -> Lock
    ensures { result ≡ lock_by locked place count }
{
    let place = u16::of_bits(place);
    let count = u32::of_bits(count);
    if locked == 0 {
        Lock::Search { cand: place, count }
    } else {
        Lock::Locked {
            offset: place,
            misses: count,
        }
    }
}

// 0 no head, 1 head zero held, otherwise the parity is known.
pub fn stage(n: u64, first: Reading, known: Parity) -> Stage
    ensures { result ≡ stage_by n first known }
{
    match n {
        0 => Stage::Before,
        1 => Stage::First(first),
        _ => Stage::Known(known),
    }
}

// Whether there is one, its position, its frame.
pub fn record(known: u64, at: u64, frame: u64) -> Option<FrameHead>
    ensures { result ≡ record_by known at frame }
{
    if known == 0 {
        None
    } else {
        Some(FrameHead {
            at,
            frame: u32::of_bits(frame),
        })
    }
}

pub fn course(
    majority: u64,
    slot: Option<SlotNumber>,
    last: Option<FrameHead>,
    misses: u64,
    stray: u64,
    missed: u64,
) -> Course
    ensures { result ≡ course_by majority slot last misses stray missed }
{
    Course {
        majority: i32::of_bits(majority),
        slot,
        last,
        misses: u32::of_bits(misses),
        stray: u32::of_bits(stray),
        missed: u32::of_bits(missed),
    }
}
