// What the crates above share and needs nothing of its caller.
#![tactic(auto, unfolding(crate::specs::Sync::started_sync, crate::specs::Sync::no_window, crate::specs::Sync::kept_window))]

ghost use Rattle.std.specs.Prelude.{◌≡◌, true, ◌+◌, ◌<◌, ◌^◌, leb, ltb, length, replicate};
ghost use Rattle.sync.specs.Sync.{started_sync, kept_window};

use crate::SlotSync;
use sync_heads::{FrameHead, given};
use sync_step::Stores;

// A sync that starts at a position with this frame record.
pub fn started(at: u64, last: Option<FrameHead>) -> SlotSync
    ensures { result ≡ started_sync at last }
{
    SlotSync {
        win: [0i16; 48],
        run: sync_step::plain::started(at, last),
    }
}

pub fn clear(acc: &mut [u32])
    ensures { acc.new ≡ replicate (length acc.old) 0 }
{
    acc.fill(0);
}

// A loss leaves no window.
pub fn kept_window(x: Stores, win: [i16; 48]) -> [i16; 48]
    ensures { result ≡ kept_window x win }
{
    match x {
        Stores::Nothing => win,
        Stores::One(_) => win,
        Stores::Zeros => [0i16; 48],
    }
}

// The symbol that comes next would stand at 2^62 or more.
pub fn past_end(base: u64, t: u64) -> bool
    ensures { result ≡ leb (2 ^ 62) (base + t) }
{
    given::past(base, t)
}

// at < base + t, which may pass 64 bits.
pub fn before(at: u64, base: u64, t: u64) -> bool
    ensures { result ≡ ltb at (base + t) }
{
    if at < base { true } else { at - base < t }
}
