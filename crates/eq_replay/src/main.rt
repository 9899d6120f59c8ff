// Replays calls of equaliser and solver. Standard input: calls of 192 bytes; standard output: an answer of 192 bytes for each. Both are 24
// numbers of 8 bytes, least byte first; compare/README.md lists the calls and what their numbers are. The program keeps one equaliser, and the
// sums that a solving is asked of.
// Input that ends within a call is told on standard error, and the status stays 0.
#![tactic(auto)]

ghost use Rattle.std.specs.Prelude.{◌≡◌, ◌+◌, ◌*◌, ◌≤◌, length, drop};
ghost use Rattle.std.proofs.Math.Seq.{paste};
ghost use Rattle.eq_replay.specs.Replay.{answer_bytes, after, replayed, left_of};

use eq_calls::kept::Kept;
use std::io;
use std::io::Write;

// 256 calls.
const BLOCK: usize = 49152;

// The call at `at`, replaced by its answer: both have 192 bytes.
fn replace(k: Kept, buf: &mut [u8], at: usize) -> Kept
    requires { at + 192 ≤ length buf.old }
    ensures { (buf.new ≡ paste buf.old at (answer_bytes k (drop at buf.old)) 192)
        × (result ≡ after k (drop at buf.old)) }
{
    let p = wire::ranged::numbers(&buf[at..]);
    let t = eq_calls::turn(p[0], k, &p);
    let a = t.told;
    let bytes = wire::packed(&a);
    wire::ranged::put(&bytes, buf, at);
    t.kept
}

// Each call of the first n replaced by its answer. No plainer as one function for all replay programs: the step would be a closure, of whose state no
// contract says as plainly what it is after n calls.
fn replay(k: Kept, buf: &mut [u8], n: usize) -> Kept
    requires { 192 * n ≤ length buf.old }
    ensures { (buf.new ≡ replayed k n buf.old) × (result ≡ left_of k n buf.old) }
{
    let mut s = k;
    for i in 0..n {
        s = replace(s, buf, 192 * i);
    }
    s
}

// A read or a write that fails ends the replay with its error.
fn main(rt: HostRuntime) -> io::Result<()> {
    let mut buf = [0u8; BLOCK];
    let e = eq::new();
    let s = sums::new(0);
    let mut k = Kept { eq: e, sums: s };
    wire::ranged::replay(&rt, &mut buf, 192, |calls: &mut [u8]| -> io::Result<()> {
        let n = calls.len() / 192;
        k = replay(k, calls, n);
        rt.stdout().write_all(calls)
    })
}
