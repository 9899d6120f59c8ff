// Numbers from bytes, where the caller proves that there are enough.
ghost use Rattle.std.specs.Prelude.{◌≡◌, ◌+◌, ◌≤◌, ◌<◌, length};
ghost use Rattle.std.proofs.Math.Seq.{paste};
ghost use Rattle.wire.specs.Wire.{word_at, number_at, numbers_of};

use crate::streams;
use std::io;
use std::io::Write;

// The number of the eight bytes from k on.
pub fn word(s: &[u8], k: usize) -> u64
    requires { k + 8 ≤ length s.now }
    ensures { result ≡ word_at s.now k }
{
    u64::from_le_bytes([
        s[k],
        s[k + 1],
        s[k + 2],
        s[k + 3],
        s[k + 4],
        s[k + 5],
        s[k + 6],
        s[k + 7],
    ])
}

// The first 24 numbers.
pub fn numbers(s: &[u8]) -> [u64; 24]
    requires { 192 ≤ length s.now }
    ensures { result ≡ numbers_of s.now }
{
    std::array::from_fn(
        |k: usize| -> u64
            requires { (k < 24) × (192 ≤ length s.now) }
            ensures { result ≡ number_at s.entry.now k }
        { word(s, 8 * k) },
    )
}

// The bytes put at `at`.
pub fn put(bytes: &[u8], buf: &mut [u8], at: usize)
    requires { at + length bytes.now ≤ length buf.old }
    ensures { buf.new ≡ paste buf.old at bytes.now (length bytes.now) }
{
    let end = at + bytes.len();
    buf[at..end].copy_from_slice(bytes);
}

// Replays standard input: blocks of calls of `size` bytes each, as many as `buf` has room for, until the input ends. `block` answers the whole
// calls of a block; it is lent the bytes of them all. Input that ends within a call is told on standard error.
// A proved loop has to end, and nothing says that the input does: no run uses up the turns.
pub fn replay<F: FnMut(&mut [u8]) -> io::Result<()>>(
    rt: &HostRuntime,
    buf: &mut [u8],
    size: usize,
    mut block: F,
) -> io::Result<()>
    requires callable { F.IsAlwaysCallable block }
    requires some { 0 < size }
{
    for _ in 0..u64::MAX {
        let got = streams::read_full(&mut rt.stdin(), buf)?;
        let whole = got - got % size;
        block(&mut buf[..whole])?;
        if whole < got {
            return rt.stderr().write_all(b"the input ends within a call\n");
        }
        if got < buf.len() {
            return Ok(());
        }
    }
    Ok(())
}
