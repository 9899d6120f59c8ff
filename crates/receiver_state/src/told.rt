// A part as 24 numbers: 0, its numbers, and zeros behind them. A negative number is 2^64 more.
ghost use Rattle.std.specs.Prelude.{◌≡◌};
ghost use Rattle.receiver_state.specs.Told.{window_told, meta_at_of, waiting_told, points_told, part_told};

use frame_line::{Meta, Metas};
use receiver::Receiver;

fn window(r: Receiver) -> [u64; 24]
    ensures { result ≡ window_told r }
{
    fields::four(0, digest::of(&r.front.sync.win), 0, 0)
}

// One of the five that wait; which, is a number of a call.
fn meta(w: Metas, k: u64) -> Meta
    ensures { result ≡ meta_at_of w k }
{
    match k {
        0 => w.first,
        1 => w.second,
        2 => w.third,
        3 => w.fourth,
        _ => w.fifth,
    }
}

// How many wait, the last position, and the one that is asked for.
fn waiting(r: Receiver, k: u64) -> [u64; 24]
    ensures { result ≡ waiting_told r k }
{
    let w = r.back.metas;
    let x = frame_wire::last_shown(r.back.last);
    let m = meta(w, k);
    let y = slot_wire::slot_shown(m.slot);
    [
        0,
        w.count as u64,
        x.known,
        x.at,
        0,
        m.at,
        slot_wire::word_number(m.word),
        y.known,
        y.number,
        y.frame,
        m.j as u64,
        0,
        0,
        0,
        0,
        0,
        0,
        0,
        0,
        0,
        0,
        0,
        0,
        0,
    ]
}

fn points(r: Receiver) -> [u64; 24]
    ensures { result ≡ points_told r }
{
    let q = r.points;
    fields::four(0, q.bits as u64, q.k as u64, digest::of(&q.points))
}

// Which part, is a number of a call. 255 is no refusal of document 01.
pub(crate) fn part(k: u64, r: Receiver, p: &[u64; 24]) -> [u64; 24]
    ensures { result ≡ part_told k p.now r }
{
    let a = r.front;
    match k {
        0 => phase_wire::told::nco(0, a.nco, 0, 0),
        1 => phase_wire::told::phase(0, a.phase),
        2 => sync_wire::told::run(a.sync.run),
        3 => sync_wire::told::heads(a.sync.run),
        4 => window(r),
        5 => waiting(r, p[4]),
        6 => points(r),
        _ => fields::four(255, 0, 0, 0),
    }
}
