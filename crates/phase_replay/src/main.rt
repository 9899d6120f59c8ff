// Replays calls of carrier and phase. Standard input: calls of 192 bytes; standard output: an answer of 192 bytes for each. Both are 24 numbers
// of 8 bytes, least byte first; compare/README.md lists the calls and what their numbers are. A state goes in with each call and comes back; the
// program keeps the carrier table and the slot store, each with one entry more than a call takes, so that too many can be lent.
// Input that ends within a call is told on standard error, and the status stays 0.
#![tactic(auto)]

mod call;
mod calls;
mod given;
mod told;

ghost use Rattle.std.specs.Prelude.{◌≡◌, ◌*◌, ◌≤◌, length};
ghost use Rattle.phase_replay.specs.Replay.{replayed, left_of, lent};

use std::io;
use std::io::Write;

// 256 calls.
const BLOCK: usize = 49152;

// Each call of the first n replaced by its answer. No plainer as one function for all replay programs: the step would be a closure, of whose state no
// contract says as plainly what it is after n calls.
fn replay(buf: &mut [u8], n: usize, table: &mut [i16], store: &mut [i16])
    requires { 192 * n ≤ length buf.old }
    ensures { (buf.new ≡ replayed (lent table.old store.old) n buf.old)
        × (lent table.new store.new ≡ left_of (lent table.old store.old) n buf.old) }
{
    for i in 0..n {
        call::replace(buf, 192 * i, table, store);
    }
}

// A read or a write that fails ends the replay with its error.
fn main(rt: HostRuntime) -> io::Result<()> {
    let mut table = [0i16; 1025];
    let mut store = [0i16; 18593];
    let mut buf = [0u8; BLOCK];
    wire::ranged::replay(&rt, &mut buf, 192, |calls: &mut [u8]| -> io::Result<()> {
        let n = calls.len() / 192;
        replay(calls, n, &mut table, &mut store);
        rt.stdout().write_all(calls)
    })
}
