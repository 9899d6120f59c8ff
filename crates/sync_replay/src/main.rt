// Replays calls of the slot sync. Standard input: calls of 8 bytes; standard output: 320 bytes for each told answer. compare/README.md says
// what the places hold. All numbers are least byte first.
// A call: its kind (1 byte), n (3 bytes), v (4 bytes).
//   0 put: v to place n of 192
//   1 words: those of the places are in force from now on
//   2 new: at the position of the places
//   3 push: n times the symbol v, I in its low half
//   4 restart: at the position of the places
//   5 hand in: the state of the places
//   6 tell: digest and last answer are written
//   7 fold: all accumulators go into the digest
//   8 set: accumulator n to v
// An answer: digest, refusal, F and S correlation (re, im), accumulator, three events of eleven numbers.
// Input that ends within a call is told on standard error, and the status stays 0.
#![tactic(auto)]

mod desk;
mod given;
mod mixing;
mod told;

ghost use Rattle.std.specs.Prelude.{◌≡◌, ◌+◌, ◌*◌, ◌≤◌, IfOk, length};

use desk::Desk;
use std::io;
use std::io::Write;
use wire::Field;

// The desk, and how much of the output is used.
#[derive(Clone, Copy)]
struct Turn {
    desk: Desk,
    used: usize,
}

// A call on the accumulators, of which place 177 says how many are lent.
fn on_store(d: Desk, kind: u64, n: u64, v: u64, p: &[u64; 192], acc: &mut [u32]) -> Desk {
    let at = given::wide(p, 144);
    let all = fields::least(p[177], acc.len());
    match kind {
        2 => desk::started(d, at, &mut acc[..all]),
        3 => desk::pushes(
            d,
            n,
            i16::of_bits(v),
            i16::of_bits(v / 65536),
            &mut acc[..all],
        ),
        4 => desk::restarted(d, at, &mut acc[..all]),
        7 => desk::folded(d, acc),
        8 => {
            desk::set(acc, n, u32::of_bits(v));
            d
        }
        _ => desk::unknown(d),
    }
}

// A call that tells nothing.
fn call(d: Desk, kind: u64, n: u64, v: u64, p: &mut [u64; 192], acc: &mut [u32]) -> Desk {
    match kind {
        0 => {
            desk::put(p, n, v);
            d
        }
        1 => desk::words(d, p),
        5 => desk::handed(d, p),
        _ => on_store(d, kind, n, v, p, acc),
    }
}

// Where the next answer goes: what stands before it is written if there is no room.
fn room(rt: &HostRuntime, used: usize, out: &[u8]) -> io::Result<usize>
    requires { (length out.now ≡ 65536) × (used ≤ 65536) }
    ensures { IfOk result (λ at. at + 320 ≤ 65536) }
{
    if used <= 65216 {
        Ok(used)
    } else {
        rt.stdout().write_all(&out[..used])?;
        Ok(0)
    }
}

fn tell(rt: &HostRuntime, d: Desk, used: usize, out: &mut [u8]) -> io::Result<usize>
    requires { (length out.old ≡ 65536) × (used ≤ 65536) }
    ensures { IfOk result (λ n. n ≤ 65536) }
{
    let t = d.told;
    let bytes = told::packed(&t);
    let at = room(rt, used, out)?;
    wire::ranged::put(&bytes, out, at);
    Ok(at + 320)
}

// One call: its kind in the lowest byte, n in the next three, v in the upper half. The kind is a number of the call's bytes: an enum of the kinds would be one more list of them.
fn one_call(
    rt: &HostRuntime,
    t: Turn,
    c: u64,
    p: &mut [u64; 192],
    acc: &mut [u32],
    out: &mut [u8],
) -> io::Result<Turn>
    requires { (length out.old ≡ 65536) × (t.used ≤ 65536) }
    ensures { IfOk result (λ t. t.used ≤ 65536) }
{
    let d = t.desk;
    let kind = c % 0x100;
    let n = c / 0x100 % 0x100_0000;
    let v = c / 0x1_0000_0000;
    if kind == 6 {
        Ok(Turn {
            desk: d,
            used: tell(rt, d, t.used, out)?,
        })
    } else {
        Ok(Turn {
            desk: call(d, kind, n, v, p, acc),
            used: t.used,
        })
    }
}

// The first n calls of a block.
fn replay(
    rt: &HostRuntime,
    d: Desk,
    buf: &[u8],
    n: usize,
    p: &mut [u64; 192],
    acc: &mut [u32],
    out: &mut [u8],
) -> io::Result<Turn>
    requires { (8 * n ≤ length buf.now) × (length out.old ≡ 65536) }
    ensures { IfOk result (λ t. t.used ≤ 65536) }
{
    let mut t = Turn { desk: d, used: 0 };
    for i in 0..n {
        t = one_call(rt, t, wire::ranged::word(buf, 8 * i), p, acc, out)?;
    }
    Ok(t)
}

// One accumulator more than a sync takes, so that too many can be lent.
// A read or a write that fails ends the replay with its error.
fn main(rt: HostRuntime) -> io::Result<()> {
    let mut p = [0u64; 192];
    let mut acc = [0u32; 9297];
    let mut buf = [0u8; 65536];
    let mut out = [0u8; 65536];
    let mut d = Desk {
        sync: sync::plain::started(0, None),
        f: [1i8; 48],
        s: [1i8; 48],
        told: [0u64; 40],
    };
    wire::ranged::replay(&rt, &mut buf, 8, |calls: &mut [u8]| -> io::Result<()> {
        let n = calls.len() / 8;
        let t = replay(&rt, d, calls, n, &mut p, &mut acc, &mut out)?;
        d = t.desk;
        rt.stdout().write_all(&out[..t.used])
    })
}
