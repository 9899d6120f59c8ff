// Replays calls of `Learn` and `InForce`. Standard input: calls of 192 bytes; standard output: an answer of 192 bytes for each. Both are 24
// numbers of 8 bytes, least byte first; compare/README.md lists the calls and what their numbers are. The program keeps one state of each, and
// the slices of learned and of nominal points, each with one number more than a call takes, so that too many can be lent.
// Input that ends within a call is told on standard error, and the status stays 0.
#![tactic(auto)]

mod call;
mod calls;
mod given;
mod kept;
mod told;

ghost use Rattle.std.specs.Prelude.{◌≡◌, ◌*◌, ◌≤◌, length};
ghost use Rattle.demap_replay.specs.Replay.{desk, replayed, left_of};

use kept::Kept;
use std::io;
use std::io::Write;

// 256 calls.
const BLOCK: usize = 49152;

// Each call of the first n replaced by its answer.
fn replay(k: Kept, buf: &mut [u8], n: usize, learned: &mut [i16], nominal: &mut [i16]) -> Kept
    requires { 192 * n ≤ length buf.old }
    ensures { (buf.new ≡ replayed (desk k learned.old nominal.old) n buf.old)
        × (desk result learned.new nominal.new ≡ left_of (desk k learned.old nominal.old) n buf.old) }
{
    let mut s = k;
    for i in 0..n {
        s = call::replace(s, buf, 192 * i, learned, nominal);
    }
    s
}

// A read or a write that fails ends the replay with its error.
fn main(rt: HostRuntime) -> io::Result<()> {
    let mut learned = [0i16; 125];
    let mut nominal = [0i16; 125];
    let mut buf = [0u8; BLOCK];
    let l = learn::new();
    let f = in_force::default();
    let mut k = Kept { learn: l, force: f };
    wire::ranged::replay(&rt, &mut buf, 192, |calls: &mut [u8]| -> io::Result<()> {
        let n = calls.len() / 192;
        k = replay(k, calls, n, &mut learned, &mut nominal);
        rt.stdout().write_all(calls)
    })
}
