// Replays calls of fx through the C functions of c_api. Standard input: the carrier table, 1,024 i16, then calls of 24 bytes (function,
// a, b). Standard output: an answer of 24 bytes (refusal, x, y) for each call. All numbers are least byte first. A function that there
// is not is refused with 255, a number that document 01 gives no meaning.
// Input that ends within the table or a call is told on standard error, and the status stays 0.
#![tactic(auto)]

mod call;

ghost use Rattle.std.specs.Prelude.{◌≡◌, ◌*◌, ◌≤◌, length};
ghost use Rattle.fx_replay.specs.Replay.{replayed};

use std::io;
use std::io::Write;

// 1,024 calls.
const BLOCK: usize = 24576;

// Each call of the first n replaced by its answer. No plainer as one function for all replay programs: the step would be a closure, of whose state no
// contract says as plainly what it is after n calls.
fn replay(table: &[i16], buf: &mut [u8], n: usize)
    requires { 24 * n ≤ length buf.old }
    ensures { buf.new ≡ replayed table.now n buf.old }
{
    for i in 0..n {
        call::replace(table, buf, 24 * i);
    }
}

// A read or a write that fails ends the replay with its error.
fn main(rt: HostRuntime) -> io::Result<()> {
    let mut bytes = [0u8; 2048];
    let got = wire::streams::read_full(&mut rt.stdin(), &mut bytes)?;
    if got < 2048 {
        return rt
            .stderr()
            .write_all(b"the input ends within the carrier table\n");
    }
    let table = wire::table(&bytes);
    let mut buf = [0u8; BLOCK];
    wire::ranged::replay(&rt, &mut buf, 24, |calls: &mut [u8]| -> io::Result<()> {
        let n = calls.len() / 24;
        replay(&table, calls, n);
        rt.stdout().write_all(calls)
    })
}
