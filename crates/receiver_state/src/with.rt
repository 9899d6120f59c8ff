// A receiver with a part replaced.
ghost use Rattle.std.specs.Prelude.{◌≡◌};
ghost use Rattle.receiver_state.specs.With.{with_front, with_nco, with_sync, with_run, with_window, with_phase, with_line, with_points, meta_put};
ghost use Rattle.laws.specs.Choice.{when◌then◌else◌};

use carrier::Nco;
use frame::Back;
use frame_line::{Meta, Metas};
use phase::Held;
use receiver::{Front, Receiver};
use receiver_slot::Points;
use sync::SlotSync;
use sync_step::Run;

fn front(r: Receiver, a: Front) -> Receiver
    ensures { result ≡ with_front r a }
{
    Receiver { front: a, ..r }
}

pub(crate) fn nco(r: Receiver, n: Nco) -> Receiver
    ensures { result ≡ with_nco r n }
{
    front(r, Front { nco: n, ..r.front })
}

fn sync(r: Receiver, y: SlotSync) -> Receiver
    ensures { result ≡ with_sync r y }
{
    front(r, Front { sync: y, ..r.front })
}

// Another run of the slot sync.
pub(crate) fn run(r: Receiver, n: Run) -> Receiver
    ensures { result ≡ with_run r n }
{
    sync(
        r,
        SlotSync {
            run: n,
            ..r.front.sync
        },
    )
}

// Another window of the slot sync.
pub(crate) fn window(r: Receiver, win: [i16; 48]) -> Receiver
    ensures { result ≡ with_window r win }
{
    sync(
        r,
        SlotSync {
            win,
            ..r.front.sync
        },
    )
}

pub(crate) fn phase(r: Receiver, s: Option<Held>) -> Receiver
    ensures { result ≡ with_phase r s }
{
    front(
        r,
        Front {
            phase: s,
            ..r.front
        },
    )
}

// Others that wait, another last position.
pub(crate) fn line(r: Receiver, w: Metas, last: Option<u64>) -> Receiver
    ensures { result ≡ with_line r w last }
{
    Receiver {
        back: Back {
            metas: w,
            last,
            ..r.back
        },
        ..r
    }
}

pub(crate) fn points(r: Receiver, p: Points) -> Receiver
    ensures { result ≡ with_points r p }
{
    Receiver { points: p, ..r }
}

fn place(b: bool, m: Meta, w: Meta) -> Meta
    ensures { result ≡ (when b then m else w) }
{
    if b { m } else { w }
}

// Another one of the five that wait.
pub(crate) fn meta(w: Metas, k: u64, m: Meta) -> Metas
    ensures { result ≡ meta_put w k m }
{
    Metas {
        first: place(k == 0, m, w.first),
        second: place(k == 1, m, w.second),
        third: place(k == 2, m, w.third),
        fourth: place(k == 3, m, w.fourth),
        fifth: place(4 <= k, m, w.fifth),
        ..w
    }
}
