// Replays calls of the alignment. Standard input: calls of 192 bytes; standard output: an answer of 192 bytes for each. Both are 24 numbers of 8
// bytes, least byte first; compare/README.md lists the calls and what their numbers are. The program keeps one alignment, both words, and the
// sums that a solving is asked of.
// Input that ends within a call is told on standard error, and the status stays 0.
#![tactic(auto)]

mod call;
mod calls;
mod given;
mod kept;
mod told;

ghost use Rattle.std.specs.Prelude.{◌≡◌, ◌*◌, ◌≤◌, length};
ghost use Rattle.frame_replay.specs.Replay.{replayed, left_of};

use kept::Kept;
use std::io;
use std::io::Write;

// 256 calls.
const BLOCK: usize = 49152;

// Each call of the first n replaced by its answer.
fn replay(k: Kept, buf: &mut [u8], n: usize) -> Kept
    requires { 192 * n ≤ length buf.old }
    ensures { (buf.new ≡ replayed k n buf.old) × (result ≡ left_of k n buf.old) }
{
    let mut s = k;
    for i in 0..n {
        s = call::replace(s, buf, 192 * i);
    }
    s
}

// A read or a write that fails ends the replay with its error.
fn main(rt: HostRuntime) -> io::Result<()> {
    let mut buf = [0u8; BLOCK];
    let b = frame::new();
    let s = sums::new(0);
    let mut k = Kept {
        back: b,
        sums: s,
        f: [0; 48],
        s: [0; 48],
    };
    wire::ranged::replay(&rt, &mut buf, 192, |calls: &mut [u8]| -> io::Result<()> {
        let n = calls.len() / 192;
        k = replay(k, calls, n);
        rt.stdout().write_all(calls)
    })
}
