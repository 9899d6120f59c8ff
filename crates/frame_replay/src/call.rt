// One call: its bytes, its answer, and that answer's bytes.
ghost use Rattle.std.specs.Prelude.{◌≡◌, ◌+◌, ◌≤◌, length, drop};
ghost use Rattle.std.proofs.Math.Seq.{paste};
ghost use Rattle.frame_replay.specs.Replay.{aligned_of, turn_of, answer_bytes, after};

use crate::calls;
use crate::kept::{Kept, Turn};

// A call of the alignment; 255 is no refusal of document 01.
fn aligned(n: u64, k: Kept, p: &[u64; 24]) -> Turn
    ensures { result ≡ aligned_of n p.now k }
{
    match n {
        0 => calls::new(k),
        1 => calls::restart(k),
        2 => calls::push(k, p),
        3 => calls::words(k, p),
        4 => calls::move_up(k, p),
        5 => calls::line(k, p),
        _ => calls::plain(k, 255),
    }
}

fn turn(op: u64, k: Kept, p: &[u64; 24]) -> Turn
    ensures { result ≡ turn_of op p.now k }
{
    if op < 16 {
        calls::on_eq(op, k, p)
    } else {
        aligned(op - 16, k, p)
    }
}

// The call at `at`, replaced by its answer: both have 192 bytes.
pub(crate) fn replace(k: Kept, buf: &mut [u8], at: usize) -> Kept
    requires { at + 192 ≤ length buf.old }
    ensures { (buf.new ≡ paste buf.old at (answer_bytes k (drop at buf.old)) 192)
        × (result ≡ after k (drop at buf.old)) }
{
    let p = wire::ranged::numbers(&buf[at..]);
    let t = turn(p[0], k, &p);
    let a = t.told;
    let bytes = wire::packed(&a);
    wire::ranged::put(&bytes, buf, at);
    t.kept
}
