// Majority, marks, slot and frame numbers. `CourseOk` and the bound of `at` stand in contracts for the reason that `ranged` gives.
#![tactic(auto, using(laws::specs::Choice::cases), unfolding(crate::specs::Frames::next_slot, crate::specs::Frames::unknown_slot, crate::specs::Frames::frame_due, crate::specs::Frames::frame_of, crate::specs::Frames::framed_of, crate::specs::Frames::tick_of, crate::specs::Frames::due_of, crate::specs::Frames::elsewhere_of))]

ghost use Rattle.std.specs.Prelude.{◌≡◌, ◌^◌, ◌<◌, ◌≤◌, Bool, unsigned_abs};
ghost use Rattle.sync_heads.specs.Frames.{marks_of, swayed_of, next_slot, unknown_slot, frame_due, gap_of, frame_of, framed_of, tick_of, due_of, elsewhere_of, fsync_course, with_sign};
ghost use Rattle.sync_heads.specs.Ready.{SlotOk, CourseOk};

use crate::{Course, FrameHead, Marked, SlotNumber};

// A sign against a majority of at least 2 is a mark.
fn marks(positive: bool, majority: i32) -> bool
    ensures { result ≡ marks_of positive majority }
{
    if positive {
        majority < -1
    } else {
        1 < majority
    }
}

// The majority with one more sign, kept within 8.
fn swayed(positive: bool, majority: i32) -> i32
    requires { unsigned_abs majority ≤ 8 }
    ensures { result ≡ swayed_of positive majority }
{
    if positive {
        if majority < 8 { majority + 1 } else { 8 }
    } else if -8 < majority {
        majority - 1
    } else {
        -8
    }
}

pub(crate) fn next_slot(s: Option<SlotNumber>) -> Option<SlotNumber>
    requires { SlotOk s }
    ensures { result ≡ next_slot s }
{
    match s {
        None => None,
        Some(s) => Some(SlotNumber {
            number: (s.number + 1) % 120,
            ..s
        }),
    }
}

fn unknown(s: Option<SlotNumber>) -> bool
    ensures { result ≡ unknown_slot s }
{
    s.is_none()
}

// Whether this slot begins a frame.
fn begins(s: Option<SlotNumber>) -> bool
    ensures { result ≡ frame_due s }
{
    s.is_some_and(|k| k.number == 0)
}

// Whole frames between two frame heads, at least 1 and at most 2^32 - 1. A record later than the head is no distance away.
fn gap(at: u64, last: u64) -> u32
    requires { at ≤ 2 ^ 62 }
    ensures { result ≡ gap_of 9296 at last }
{
    let n = (at.saturating_sub(last) + 557760) / 1115520;
    n.clamp(1, 4294967295) as u32
}

fn frame(at: u64, r: Option<FrameHead>) -> u32
    requires { at ≤ 2 ^ 62 }
    ensures { result ≡ frame_of 9296 at r }
{
    match r {
        None => 0,
        Some(l) => std::num::wrapping_add_u32(l.frame, gap(at, l.at)),
    }
}

// A frame begins at `at`.
fn framed(c: Course, at: u64) -> Course
    requires { at ≤ 2 ^ 62 }
    ensures { result ≡ framed_of 9296 c at }
{
    let frame = frame(at, c.last);
    Course {
        slot: Some(SlotNumber { number: 0, frame }),
        last: Some(FrameHead { at, frame }),
        ..c
    }
}

// One more, and not past 2^32 - 1.
fn tick(n: u32) -> u32
    ensures { result ≡ tick_of n }
{
    n.saturating_add(1)
}

// A frame head was expected here: marked, missed for the first time, or lost.
fn due(marked: bool, c: Course, at: u64) -> Marked
    requires { (at ≤ 2 ^ 62) × (c.misses < 2) }
    ensures { result ≡ due_of 9296 marked c at }
{
    if marked {
        Marked {
            lost: false,
            course: framed(Course { misses: 0, ..c }, at),
        }
    } else if c.misses < 1 {
        let n = Course {
            misses: c.misses + 1,
            missed: tick(c.missed),
            ..c
        };
        Marked {
            lost: false,
            course: framed(n, at),
        }
    } else {
        Marked {
            lost: true,
            course: c,
        }
    }
}

// The course with another majority and slot.
pub(crate) fn moved_on(c: Course, majority: i32, slot: Option<SlotNumber>) -> Course
    ensures { result ≡ with_sign c majority slot }
{
    Course {
        majority,
        slot,
        ..c
    }
}

// A mark, or none, at a slot where no frame head is expected: the first mark of all begins the numbers.
fn elsewhere(marked: bool, c: Course, at: u64) -> Course
    requires { at ≤ 2 ^ 62 }
    ensures { result ≡ elsewhere_of 9296 marked c at }
{
    if marked {
        if unknown(c.slot) {
            framed(c, at)
        } else {
            Course {
                stray: tick(c.stray),
                ..c
            }
        }
    } else {
        c
    }
}

// The course after an F head of this sign.
pub(crate) fn fsync_course(positive: bool, c: Course, at: u64) -> Marked
    requires { (at ≤ 2 ^ 62) × CourseOk c }
    ensures { result ≡ fsync_course 9296 positive c at }
{
    let marked = marks(positive, c.majority);
    let slot = next_slot(c.slot);
    let n = moved_on(c, swayed(positive, c.majority), slot);
    if begins(slot) {
        due(marked, n, at)
    } else {
        Marked {
            lost: false,
            course: elsewhere(marked, n, at),
        }
    }
}
