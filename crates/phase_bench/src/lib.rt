// What compare/src/bench_phase.rs measures: symbols rotated in a block, and a slot corrected, as C functions. They are no entries (docs/DECISIONS.md, F.19).
#![tactic(auto)]

ghost use Rattle.std.specs.Prelude.{◌≡◌, ◌+◌, ◌/◌, ◌≤◌, ◌^◌, length};
ghost use Rattle.phase.specs.Ranges.{WholeOk};
ghost use Rattle.phase_bench.specs.Blocks.{turned, rotated_all, rotated_phase, rotated_out};
ghost use Rattle.phase_bench.specs.Slots.{places, corrected_all, head_of, due_between, DueOk, fitting, corrected_code, corrected_places};

use carrier::Nco;
use phase::{Held, WholeSlot};
use sync_corr::Corr;
use sync_heads::{Head, Word};

// Each symbol of xs rotated into out.
fn rotate_all(n: Nco, xs: &[i8], table: &[i16], out: &mut [i16]) -> Nco
    requires { (length table.now ≡ 1024) × (length xs.now ≤ length out.old) }
    ensures { turned result out.new ≡ rotated_all xs.now table.now (length xs.now / 2) (turned n out.old) }
{
    let m = xs.len() / 2;
    let mut r = n;
    for k in 0..m {
        let x = carrier::ranged::rotated(table, r.phase, xs[2 * k], xs[2 * k + 1]);
        out[2 * k] = x.i;
        out[2 * k + 1] = x.q;
        r = carrier::plain::advanced(r);
    }
    r
}

// A new carrier with a step rotates the symbols of xs into out, which is as long: the phase after them, and 0 and nothing done where the
// lengths are others.
#[unsafe(no_mangle)]
pub extern "C" fn measure_rotate(freq: i32, xs: &[i8], table: &[i16], out: &mut [i16]) -> u32
    ensures { (result ≡ rotated_phase freq xs.now table.now out.old) × (out.new ≡ rotated_out freq xs.now table.now out.old) }
{
    if (table.len() == 1024) & (xs.len() <= out.len()) {
        rotate_all(carrier::plain::started(0, freq), xs, table, out).phase
    } else {
        0
    }
}

// All symbols of a slot: the corrected ones, their phases and gains.
fn correct_all(
    w: WholeSlot,
    table: &[i16],
    store: &[i16],
    y: &mut [i16],
    phi: &mut [u32],
    gain: &mut [i64],
)
    requires { (WholeOk w) × (w.head.at + 9296 ≤ 2 ^ 62) × (length table.now ≡ 1024) × (length store.now ≡ 18592) × (length y.old ≡ 18592) × (length phi.old ≡ 9296) × (length gain.old ≡ 9296) }
    ensures { places y.new phi.new gain.new ≡ corrected_all w table.now store.now 9296 (places y.old phi.old gain.old) }
{
    for j in 0..9296 {
        let c = phase::ranged::corrected(w, j, table, store);
        y[2 * j] = c.y.i;
        y[2 * j + 1] = c.y.q;
        phi[j] = c.phi;
        gain[j] = c.gain;
    }
}

fn head_of(at: u64, theta: u32, amp: i64) -> Head
    ensures { result ≡ head_of at theta amp }
{
    Head {
        at,
        word: Word::Ssync,
        corr: Corr { re: 0, im: 0 },
        theta,
        amp,
        slot: None,
        nco_phase: 0,
    }
}

// The slot at position 0 between heads of these angles and magnitudes: 9,296 symbols came.
fn due(theta: u32, amp: i64, next: u32, last: i64) -> Option<WholeSlot>
    ensures { (result ≡ due_between theta amp next last) × DueOk result }
{
    let full = Some(Held {
        head: head_of(0, theta, amp),
        count: 9296,
    });
    match phase::head(full, head_of(9296, next, last)) {
        Ok(x) => x.due,
        Err(_) => None,
    }
}

// A slot between heads of these angles and magnitudes, corrected into places of its length: 0, or why not; 1 where a length is another.
// A number, as C is given it.
#[unsafe(no_mangle)]
pub extern "C" fn measure_correct(
    theta: u32,
    amp: i64,
    next: u32,
    last: i64,
    table: &[i16],
    store: &[i16],
    y: &mut [i16],
    phi: &mut [u32],
    gain: &mut [i64],
) -> u8
    ensures { (result ≡ corrected_code (due_between theta amp next last) (fitting table.now store.now (places y.old phi.old gain.old))) × (places y.new phi.new gain.new ≡ corrected_places (due_between theta amp next last) table.now store.now (places y.old phi.old gain.old)) }
{
    let fit = (table.len() == 1024)
        & (store.len() == 18592)
        & (y.len() == 18592)
        & (phi.len() == 9296)
        & (gain.len() == 9296);
    match due(theta, amp, next, last) {
        None => 6,
        Some(w) => {
            if fit {
                correct_all(w, table, store, y, phi, gain);
                0
            } else {
                1
            }
        }
    }
}
