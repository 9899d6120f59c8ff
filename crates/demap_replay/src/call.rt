// One call: its bytes, its answer, and that answer's bytes.
ghost use Rattle.std.specs.Prelude.{◌≡◌, ◌+◌, ◌≤◌, length, drop};
ghost use Rattle.std.proofs.Math.Seq.{paste};
ghost use Rattle.demap_replay.specs.Replay.{desk, read_of, turn_of, learned_of, nominal_of, answer_bytes, after};

use crate::kept::{Kept, Turn};
use crate::{calls, kept, told};

// The answer to a call that leaves all as it is; 255 is no refusal of document 01.
fn read<'a>(op: u64, k: Kept, p: &[u64; 24], learned: &'a [i16], nominal: &'a [i16]) -> [u64; 24]
    requires { 12 ≤ op }
    ensures { result ≡ read_of op p.now (desk k learned.now nominal.now) }
{
    match op {
        12 => told::single(0, digest::of(learned), 0),
        13 => told::single(0, digest::of(nominal), 0),
        14 => calls::part(k, p, learned, nominal),
        15 => calls::label(k, p),
        16 => {
            let f = k.force;
            told::force(f)
        }
        17 => calls::figure(k),
        18 => calls::metric(p),
        19 => calls::block(p, learned, nominal),
        _ => told::single(255, 0, 0),
    }
}

// A call that writes to a slice, or to nothing.
fn on_slices(op: u64, k: Kept, p: &[u64; 24], learned: &mut [i16], nominal: &mut [i16]) -> Turn
    requires { 8 ≤ op }
    ensures { (result ≡ turn_of op p.now (desk k learned.old nominal.old))
        × (learned.new ≡ learned_of op p.now (desk k learned.old nominal.old))
        × (nominal.new ≡ nominal_of op p.now (desk k learned.old nominal.old)) }
{
    match op {
        8 => calls::next(k, p, learned),
        9 => calls::points(k, p, learned),
        10 => {
            fields::set(p, learned);
            kept::turned(k, told::single(0, 0, 0))
        }
        11 => {
            fields::set(p, nominal);
            kept::turned(k, told::single(0, 0, 0))
        }
        _ => {
            let told = read(op, k, p, learned, nominal);
            kept::turned(k, told)
        }
    }
}

fn turn(op: u64, k: Kept, p: &[u64; 24], learned: &mut [i16], nominal: &mut [i16]) -> Turn
    ensures { (result ≡ turn_of op p.now (desk k learned.old nominal.old))
        × (learned.new ≡ learned_of op p.now (desk k learned.old nominal.old))
        × (nominal.new ≡ nominal_of op p.now (desk k learned.old nominal.old)) }
{
    match op {
        0 => calls::new(k),
        1 => calls::pilot(k, p),
        2 => calls::noise(k, p),
        3 => calls::sum(k, p),
        4 => calls::count(k, p),
        5 => calls::noise_put(k, p),
        6 => calls::default(k),
        7 => calls::force(k, p),
        _ => on_slices(op, k, p, learned, nominal),
    }
}

// The call at `at`, replaced by its answer: both have 192 bytes.
pub(crate) fn replace(
    k: Kept,
    buf: &mut [u8],
    at: usize,
    learned: &mut [i16],
    nominal: &mut [i16],
) -> Kept
    requires { at + 192 ≤ length buf.old }
    ensures { (buf.new ≡ paste buf.old at (answer_bytes (desk k learned.old nominal.old) (drop at buf.old)) 192)
        × (desk result learned.new nominal.new ≡ after (desk k learned.old nominal.old) (drop at buf.old)) }
{
    let p = wire::ranged::numbers(&buf[at..]);
    let t = turn(p[0], k, &p, learned, nominal);
    let a = t.told;
    let bytes = wire::packed(&a);
    wire::ranged::put(&bytes, buf, at);
    t.kept
}
