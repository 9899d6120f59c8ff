// Symbols that tell nothing, in a loop. The rows come by a reference (docs/BENCHMARKS.md).
ghost use Rattle.std.specs.Prelude.{◌≡◌, true, ℕ, ◌+◌, ◌*◌, ◌≤◌, ◌<◌, length};
ghost use Rattle.laws.specs.Choice.{when◌then◌else◌};
ghost use Rattle.sync_corr.specs.Rows.{SmallRows};
ghost use Rattle.receiver_bounds.specs.Bounds.{all_within, tally_within};
ghost use Rattle.receiver_feed.specs.Quiet.{Fits, kept_at, moves, moving, place_in};

use crate::Moved;
use phase::Held;
use sync_lock::Tally;

// A symbol into the slot store; past the 9,296th it is ignored.
fn keep(store: &mut [i16], c: usize, i: i16, q: i16)
    requires { length store.old ≡ 18592 }
    ensures { store.new ≡ kept_at c i q store.old }
{
    if c < 9296 {
        store[2 * c] = i;
        store[2 * c + 1] = q;
    }
}

// n, or k if the figures are out of range.
fn up_to(y: Tally, k: usize, n: usize) -> usize
    ensures { result ≡ (when tally_within y then n else k) }
{
    if receiver_bounds::plain::tally_within(y) {
        n
    } else {
        k
    }
}

// n of them from symbol i on, the first of which completes the window at place p and puts the one 23 back at place c. It stops before one for which the figures
// are out of range: no call's own accumulators lead there.
fn quiet(
    y0: Tally,
    phase: u32,
    freq: i32,
    bytes: &[i8],
    i: usize,
    n: usize,
    p: usize,
    c: usize,
    rows: &[i16; 192],
    table: &[i16],
    win: &mut [i16; 48],
    acc: &mut [u32],
    store: &mut [i16],
) -> Moved
    requires { (length win.old ≡ 48) × (length acc.old ≡ 9296) × (length store.old ≡ 18592) × (length table.now ≡ 1024) × (2 * (i + n) ≤ length bytes.now) × (p + n ≤ 9296) × (c ≤ 9296) × (1 ≤ n) × (SmallRows rows.now) × (all_within 4096 win.old ≡ true) × (tally_within y0 ≡ true) }
    ensures { (moving win.new result.tally acc.new store.new result.phase ≡ moves (record { bytes = bytes.now; table = table.now; rows = rows.now; freq = freq }) i p c result.taken (moving win.old y0 acc.old store.old phase)) × (1 ≤ result.taken) × (result.taken ≤ n) × ((j : ℕ) → j < result.taken → Fits (moves (record { bytes = bytes.now; table = table.now; rows = rows.now; freq = freq }) i p c j (moving win.old y0 acc.old store.old phase))) × (all_within 4096 win.new ≡ true) }
{
    let mut y = y0;
    let mut a = phase;
    let mut end = n;
    let mut k: usize = 0;
    // The end moves with the figures, and a `for` takes its end once.
    while k < end {
        let z = carrier::ranged::rotated(table, a, bytes[2 * (i + k)], bytes[2 * (i + k) + 1]);
        y = sync_block::ranged::one(y, win, z.i, z.q, p + k, rows, acc);
        keep(store, c + k, win[0], win[1]);
        a = angles::ranged::turn_on(a, freq as i64);
        k += 1;
        end = up_to(y, k, n);
    }
    Moved {
        taken: k,
        tally: y,
        phase: a,
    }
}

// .. by the slot phase: none is held, or the next symbol has its place.
pub(crate) fn moved(
    y0: Tally,
    phase: u32,
    freq: i32,
    bytes: &[i8],
    i: usize,
    n: usize,
    p: usize,
    s: Option<Held>,
    rows: &[i16; 192],
    table: &[i16],
    win: &mut [i16; 48],
    acc: &mut [u32],
    store: &mut [i16],
) -> Moved
    requires { (length win.old ≡ 48) × (length acc.old ≡ 9296) × (length store.old ≡ 18592) × (length table.now ≡ 1024) × (2 * (i + n) ≤ length bytes.now) × (p + n ≤ 9296) × (place_in s ≤ 9296) × (1 ≤ n) × (SmallRows rows.now) × (all_within 4096 win.old ≡ true) × (tally_within y0 ≡ true) }
    ensures { (moving win.new result.tally acc.new store.new result.phase ≡ moves (record { bytes = bytes.now; table = table.now; rows = rows.now; freq = freq }) i p (place_in s) result.taken (moving win.old y0 acc.old store.old phase)) × (1 ≤ result.taken) × (result.taken ≤ n) × ((j : ℕ) → j < result.taken → Fits (moves (record { bytes = bytes.now; table = table.now; rows = rows.now; freq = freq }) i p (place_in s) j (moving win.old y0 acc.old store.old phase))) × (all_within 4096 win.new ≡ true) }
{
    match s {
        None => quiet(
            y0, phase, freq, bytes, i, n, p, 9296, rows, table, win, acc, store,
        ),
        Some(x) => {
            let c = x.count as usize;
            quiet(
                y0, phase, freq, bytes, i, n, p, c, rows, table, win, acc, store,
            )
        }
    }
}
