// One call: its bytes, its answer, and that answer's bytes.
ghost use Rattle.std.specs.Prelude.{◌≡◌, ◌+◌, ◌≤◌, length, drop};
ghost use Rattle.std.proofs.Math.Seq.{paste};
ghost use Rattle.phase_replay.specs.Replay.{answer_of, table_of, store_of, answer_bytes, lent, after, Reads};

use crate::{calls, told};

// The answer to a call that writes nothing; 255 is no refusal of document 01. Which call it is stands as a number in its bytes: an enum of the calls
// would be one more list of these numbers.
fn answer(op: u64, p: &[u64; 24], table: &[i16], store: &[i16]) -> [u64; 24]
    requires { Reads op }
    ensures { result ≡ answer_of op p.now table.now store.now }
{
    match op {
        0 => fields::four(0, digest::of(table), 0, 0),
        1 => fields::four(0, digest::of(store), 0, 0),
        2 => calls::nco_new(p),
        3 => calls::rotate(p, table),
        4 => calls::hear(p),
        5 => calls::nco_restart(p),
        6 => calls::gain(p),
        7 => phase_wire::told::phase(0, phase::new()),
        8 => calls::restart(p),
        9 => told::headed(calls::head(p)),
        10 => told::due(calls::head(p)),
        11 => told::next(calls::head(p)),
        12 => calls::correct(p, table, store),
        _ => fields::four(255, 0, 0, 0),
    }
}

// The answer to a call, and what it leaves.
fn answered(op: u64, p: &[u64; 24], table: &mut [i16], store: &mut [i16]) -> [u64; 24]
    ensures { (result ≡ answer_of op p.now table.old store.old)
        × (table.new ≡ table_of op p.now table.old)
        × (store.new ≡ store_of op p.now store.old) }
{
    match op {
        13 => calls::push(p, store),
        14 => {
            fields::set(p, table);
            fields::four(0, 0, 0, 0)
        }
        15 => {
            fields::set(p, store);
            fields::four(0, 0, 0, 0)
        }
        _ => answer(op, p, table, store),
    }
}

// The call at `at`, replaced by its answer: both have 192 bytes.
pub(crate) fn replace(buf: &mut [u8], at: usize, table: &mut [i16], store: &mut [i16])
    requires { at + 192 ≤ length buf.old }
    ensures { (buf.new ≡ paste buf.old at (answer_bytes (lent table.old store.old) (drop at buf.old)) 192)
        × (lent table.new store.new ≡ after (lent table.old store.old) (drop at buf.old)) }
{
    let p = wire::ranged::numbers(&buf[at..]);
    let a = answered(p[0], &p, table, store);
    let bytes = wire::packed(&a);
    wire::ranged::put(&bytes, buf, at);
}
