// A part replaced by the numbers of a call.
ghost use Rattle.std.specs.Prelude.{◌≡◌, ◌+◌, ◌*◌, ◌<◌};
ghost use Rattle.receiver_state.specs.Put.{carrier_put, phase_put, run_put_in, heads_put_in, window_put, waiting_put, point_at, points_of, points_put, part_put};

use crate::with;
use receiver::Receiver;
use receiver_slot::Points;
use wire::Field;

fn carrier(r: Receiver, p: &[u64; 24]) -> Receiver
    ensures { result ≡ carrier_put r p.now }
{
    with::nco(r, phase_wire::nco_at(p))
}

fn phase(r: Receiver, p: &[u64; 24]) -> Receiver
    ensures { result ≡ phase_put r p.now }
{
    with::phase(r, phase_wire::phase_at(p))
}

fn run(r: Receiver, p: &[u64; 24]) -> Receiver
    ensures { result ≡ run_put_in r p.now }
{
    with::run(r, sync_wire::run_put(r.front.sync.run, p))
}

fn heads(r: Receiver, p: &[u64; 24]) -> Receiver
    ensures { result ≡ heads_put_in r p.now }
{
    with::run(r, sync_wire::heads_put(r.front.sync.run, p))
}

fn window(r: Receiver, p: &[u64; 24]) -> Receiver
    ensures { result ≡ window_put r p.now }
{
    with::window(r, sync_wire::window_at(&wire::packed(p)))
}

// How many wait and the last position, numbers 1 to 3; one of those that wait, numbers 4 to 10.
fn waiting(r: Receiver, p: &[u64; 24]) -> Receiver
    ensures { result ≡ waiting_put r p.now }
{
    let m = frame_wire::ranged::meta_at(p, 5);
    let v = with::meta(frame_wire::count_put(r.back.metas, p), p[4], m);
    with::line(r, v, frame_wire::last_at(p))
}

// The points of the bytes from 32 on.
fn points_at(bytes: &[u8; 192]) -> [i16; 64]
    ensures { result ≡ points_of bytes.now }
{
    std::array::from_fn(
        |k: usize| -> i16
            requires { k < 64 }
            ensures { result ≡ point_at bytes.entry.now k }
        { fields::ranged::pair_at(bytes, 32 + 2 * k) },
    )
}

// Bits and scale, numbers 1 and 2, and the points.
fn points(r: Receiver, p: &[u64; 24]) -> Receiver
    ensures { result ≡ points_put r p.now }
{
    with::points(
        r,
        Points {
            bits: u8::of_bits(p[1]),
            points: points_at(&wire::packed(p)),
            k: u32::of_bits(p[2]),
        },
    )
}

// The calls that replace a part, by their numbers in the bytes of calls.
pub(crate) fn part(n: u64, r: Receiver, p: &[u64; 24]) -> Receiver
    ensures { result ≡ part_put n p.now r }
{
    match n {
        1 => carrier(r, p),
        3 => phase(r, p),
        5 => run(r, p),
        7 => heads(r, p),
        9 => window(r, p),
        11 => waiting(r, p),
        13 => points(r, p),
        _ => r,
    }
}
