// Why a call is refused, in the order of document 01's table.
ghost use Rattle.std.specs.Prelude.{◌≡◌};
ghost use Rattle.demap.specs.Answers.{bad_points, bad_scale};
ghost use Rattle.receiver.specs.Answers.{points_refusal, restart_refusal};

use crate::{Receiver, plain};
use refusal::Refusal;

fn bad_points(bits: u8, len: usize) -> bool
    ensures { result ≡ bad_points bits len }
{
    if bits < 1 {
        true
    } else if 5 < bits {
        true
    } else {
        len != 2usize << (bits as u32)
    }
}

fn bad_scale(k: i64) -> bool
    ensures { result ≡ bad_scale k }
{
    (k < 0) | (16777216 < k)
}

pub(crate) fn load_points(r: Receiver, bits: u8, len: usize, k: i64) -> Result<(), Refusal>
    ensures { result ≡ points_refusal r bits len k }
{
    if bad_points(bits, len) {
        return Err(Refusal::Points);
    }
    if bad_scale(k) {
        return Err(Refusal::Scale);
    }
    plain::range_refusal(r)
}

pub(crate) fn restart(r: Receiver, at: u64, len: usize) -> Result<(), Refusal>
    ensures { result ≡ restart_refusal r at len }
{
    if len != 9296 {
        return Err(Refusal::Stores);
    }
    if !plain::receiver_within(r) {
        return Err(Refusal::Arithmetic);
    }
    let y = r.front.sync.run;
    if sync::plain::before(at, y.base, y.t) {
        return Err(Refusal::Position);
    }
    Ok(())
}
