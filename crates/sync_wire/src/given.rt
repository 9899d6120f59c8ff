// Parts of a run as the 24 numbers of a call hold them.
#![tactic(auto, unfolding(crate::specs::Given::stage_of, crate::specs::Given::record_of, crate::specs::Given::course_of))]

ghost use Rattle.std.specs.Prelude.{◌≡◌};
ghost use Rattle.sync_wire.specs.Given.{stage_of, record_of, course_of};

use crate::parts;
use sync_corr::Both;
use sync_heads::{Course, FrameHead, Parity, Reading, Stage};

pub(crate) fn stage_at(p: &[u64; 24]) -> Stage
    ensures { result ≡ stage_of p.now }
{
    let first = Reading {
        at: p[2],
        both: Both {
            f: slot_wire::corr(p[3], p[4]),
            s: slot_wire::corr(p[5], p[6]),
        },
    };
    let known = Parity {
        odd: p[2] != 0,
        due: p[3] != 0,
        last: slot_wire::corr(p[4], p[5]),
    };
    parts::stage(p[1], first, known)
}

fn record_at(p: &[u64; 24]) -> Option<FrameHead>
    ensures { result ≡ record_of p.now }
{
    parts::record(p[11], p[12], p[13])
}

pub(crate) fn course_at(p: &[u64; 24]) -> Course
    ensures { result ≡ course_of p.now }
{
    let slot = slot_wire::slot(p[8], p[9], p[10]);
    parts::course(p[7], slot, record_at(p), p[14], p[15], p[16])
}
