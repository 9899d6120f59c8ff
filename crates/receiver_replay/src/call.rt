// One call: its bytes, its answer, and that answer's bytes.
ghost use Rattle.std.specs.Prelude.{◌≡◌, ◌+◌, ◌≤◌, length, drop};
ghost use Rattle.std.proofs.Math.Seq.{paste};
ghost use Rattle.receiver_replay.specs.Calls.{all, moved};
ghost use Rattle.receiver_replay.specs.Replay.{stores_of, turn_of, answer_bytes, after};

use crate::{given, stores};
use receiver_calls::kept::{Kept, Turn};

// 255 is no refusal of document 01.
fn with(
    n: u64,
    k: Kept,
    p: &[u64; 24],
    table: &mut [i16],
    acc: &mut [u32],
    store: &mut [i16],
    soft: &mut [i8],
    input: &mut [i8],
) -> Turn
    ensures { moved result table.new acc.new store.new soft.new input.new ≡ stores_of n p.now (all k table.old acc.old store.old soft.old input.old) }
{
    match n {
        0 => stores::new(k, p, acc),
        1 => stores::restart(k, p, acc),
        2 => stores::look(k, acc, store, soft),
        3 => {
            fields::set(p, table);
            receiver_calls::plain(k, 0)
        }
        4 => stores::play(k, p, table, acc, store, soft),
        5 => {
            let x = given::symbols(p);
            stores::feed(k, p, &x, table, acc, store, soft)
        }
        6 => {
            fields::set(p, acc);
            receiver_calls::plain(k, 0)
        }
        7 => {
            given::put(p, input);
            receiver_calls::plain(k, 0)
        }
        8 => stores::feed(k, p, input, table, acc, store, soft),
        _ => receiver_calls::plain(k, 255),
    }
}

fn turn(
    op: u64,
    k: Kept,
    p: &[u64; 24],
    table: &mut [i16],
    acc: &mut [u32],
    store: &mut [i16],
    soft: &mut [i8],
    input: &mut [i8],
) -> Turn
    ensures { moved result table.new acc.new store.new soft.new input.new ≡ turn_of op p.now (all k table.old acc.old store.old soft.old input.old) }
{
    if op < 64 {
        receiver_calls::turn(op, k, p)
    } else {
        with(op - 64, k, p, table, acc, store, soft, input)
    }
}

// The call at `at`, replaced by its answer: both have 192 bytes.
pub(crate) fn replace(
    k: Kept,
    buf: &mut [u8],
    at: usize,
    table: &mut [i16],
    acc: &mut [u32],
    store: &mut [i16],
    soft: &mut [i8],
    input: &mut [i8],
) -> Kept
    requires { at + 192 ≤ length buf.old }
    ensures { (buf.new ≡ paste buf.old at (answer_bytes (all k table.old acc.old store.old soft.old input.old) (drop at buf.old)) 192)
        × (all result table.new acc.new store.new soft.new input.new ≡ after (all k table.old acc.old store.old soft.old input.old) (drop at buf.old)) }
{
    let p = wire::ranged::numbers(&buf[at..]);
    let t = turn(p[0], k, &p, table, acc, store, soft, input);
    let a = t.told;
    let bytes = wire::packed(&a);
    wire::ranged::put(&bytes, buf, at);
    t.kept
}
