// Words and states as the 192 places hold them, each number taken to the width of its field by its low bits. One of 64 bits takes two places, the
// low half first.
#![tactic(auto, unfolding(crate::specs::Given::tally_of, crate::specs::Given::lock_of, crate::specs::Given::stage_of, crate::specs::Given::record_of, crate::specs::Given::course_of, crate::specs::Given::run_of, crate::specs::Given::state_of, crate::specs::Given::wide_at))]

ghost use Rattle.std.specs.Prelude.{◌≡◌, ◌+◌, ◌<◌, ◌≤◌};
ghost use Rattle.fields.specs.Fields.{one_at, ones_at};
ghost use Rattle.sync_replay.specs.Given.{wide_at, window_entry, window_of, stage_of, record_of, course_of, run_of, state_of};

use sync::SlotSync;
use sync_corr::Both;
use sync_heads::{Course, FrameHead, Parity, Reading, Stage};
use sync_step::Run;
use sync_wire::parts;
use wire::Field;

pub(crate) fn wide(p: &[u64; 192], k: usize) -> u64
    requires { k + 1 < 192 }
    ensures { result ≡ wide_at p.now k }
{
    (u32::of_bits(p[k]) as u64) + 0x1_0000_0000 * (u32::of_bits(p[k + 1]) as u64)
}

// The word from place k on.
pub(crate) fn word(p: &[u64; 192], k: usize) -> [i8; 48]
    requires { k + 48 ≤ 192 }
    ensures { result ≡ ones_at p.now k }
{
    std::array::from_fn(
        |i: usize| -> i8
            requires { (i < 48) × (k + 48 ≤ 192) }
            ensures { result ≡ one_at p.entry.now k i }
        { i8::of_bits(p[k + i]) },
    )
}

fn window_at(p: &[u64; 192]) -> [i16; 48]
    ensures { result ≡ window_of p.now }
{
    std::array::from_fn(
        |i: usize| -> i16
            requires { i < 48 }
            ensures { result ≡ window_entry p.entry.now i }
        { i16::of_bits(p[96 + i]) },
    )
}

fn stage_at(p: &[u64; 192]) -> Stage
    ensures { result ≡ stage_of p.now }
{
    let first = Reading {
        at: wide(p, 156),
        both: Both {
            f: slot_wire::corr(p[158], p[159]),
            s: slot_wire::corr(p[160], p[161]),
        },
    };
    let known = Parity {
        odd: p[162] != 0,
        due: p[163] != 0,
        last: slot_wire::corr(p[164], p[165]),
    };
    parts::stage(p[155], first, known)
}

fn record_at(p: &[u64; 192]) -> Option<FrameHead>
    ensures { result ≡ record_of p.now }
{
    parts::record(p[170], wide(p, 171), p[173])
}

fn course_at(p: &[u64; 192]) -> Course
    ensures { result ≡ course_of p.now }
{
    let slot = slot_wire::slot(p[167], p[168], p[169]);
    parts::course(p[166], slot, record_at(p), p[174], p[175], p[176])
}

fn run_at(p: &[u64; 192]) -> Run
    ensures { result ≡ run_of p.now }
{
    Run {
        base: wide(p, 144),
        t: wide(p, 146),
        tally: parts::tally(p[148], p[149], wide(p, 150)),
        lock: parts::lock(p[152], p[153], p[154]),
        stage: stage_at(p),
        course: course_at(p),
    }
}

// The state of the places.
pub(crate) fn state_at(p: &[u64; 192]) -> SlotSync
    ensures { result ≡ state_of p.now }
{
    SlotSync {
        win: window_at(p),
        run: run_at(p),
    }
}
