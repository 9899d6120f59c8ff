// Replays calls of the receiver. Standard input: calls of 192 bytes; standard output: an answer of 192 bytes for each. Both are 24 numbers of 8
// bytes, least byte first; compare/README.md lists the calls and what their numbers are. The program keeps one receiver, both words, the events of
// the last play, sums, the carrier table and the stores, each with a few entries more than a call takes, so that too many can be lent; and bytes of
// symbols, the input, which many calls fill and one feed takes, since a call has room for 72 symbols only.
// Standard input that ends within a call is told on standard error, and the status stays 0.
#![tactic(auto)]

mod call;
mod given;
mod stores;

ghost use Rattle.std.specs.Prelude.{◌≡◌, ◌*◌, ◌≤◌, length};
ghost use Rattle.receiver_replay.specs.Calls.{all};
ghost use Rattle.receiver_replay.specs.Replay.{replayed, left_of};

use receiver_calls::kept::Kept;
use std::io;
use std::io::Write;
use sync_step::{Event, Events};

// 256 calls.
const BLOCK: usize = 49152;

// Each call of the first n replaced by its answer.
fn replay(
    k: Kept,
    buf: &mut [u8],
    n: usize,
    table: &mut [i16],
    acc: &mut [u32],
    store: &mut [i16],
    soft: &mut [i8],
    input: &mut [i8],
) -> Kept
    requires { 192 * n ≤ length buf.old }
    ensures { (buf.new ≡ replayed (all k table.old acc.old store.old soft.old input.old) n buf.old)
        × (all result table.new acc.new store.new soft.new input.new ≡ left_of (all k table.old acc.old store.old soft.old input.old) n buf.old) }
{
    let mut s = k;
    for i in 0..n {
        s = call::replace(s, buf, 192 * i, table, acc, store, soft, input);
    }
    s
}

// A read or a write that fails ends the replay with its error.
fn main(rt: HostRuntime) -> io::Result<()> {
    let mut buf = [0u8; BLOCK];
    let mut table = [0i16; 1025];
    let mut acc = [0u32; 9297];
    let mut store = [0i16; 18593];
    let mut soft = [85i8; 50000];
    let mut input = [0i8; 40000];
    let r = match receiver::new(0, 0, &mut acc) {
        Ok(r) => r,
        Err(x) => x.state,
    };
    let s = sums::new(0);
    let mut k = Kept {
        receiver: r,
        sums: s,
        f: [0; 48],
        s: [0; 48],
        events: Events {
            first: Event::Nothing,
            second: Event::Nothing,
            third: Event::Nothing,
        },
    };
    wire::ranged::replay(&rt, &mut buf, 192, |calls: &mut [u8]| -> io::Result<()> {
        let n = calls.len() / 192;
        k = replay(
            k, calls, n, &mut table, &mut acc, &mut store, &mut soft, &mut input,
        );
        rt.stdout().write_all(calls)
    })
}
