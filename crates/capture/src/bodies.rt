// The bodies before the symbols.
ghost use Rattle.std.specs.Prelude.{◌≡◌, ◌+◌, ◌*◌, ◌≤◌, length};
ghost use Rattle.capture.specs.Bodies.{word_from, words_answer, table_of, points_from, padded, points_fit, points_answer};

use crate::{Points, Words, numbers};
use refusal::Refusal;

// The 48 signed bytes from k on.
fn word(bytes: &[u8], k: usize) -> [i8; 48]
    requires { k + 48 ≤ length bytes.now }
    ensures { result ≡ word_from bytes.now k }
{
    let mut w = [0; 48];
    crate::symbols(&bytes[k..k + 48], &mut w);
    w
}

// Both words, of which every entry is 1 or -1.
pub(crate) fn words(bytes: &[u8]) -> Result<Words, Refusal>
    ensures { result ≡ words_answer bytes.now }
{
    if bytes.len() < 129 {
        return Err(Refusal::Bodies);
    }
    let f = word(bytes, 33);
    let s = word(bytes, 81);
    if sync_corr::plain::ones(&f) & sync_corr::plain::ones(&s) {
        Ok(Words { f, s })
    } else {
        Err(Refusal::Words)
    }
}

// The carrier table.
pub(crate) fn table(bytes: &[u8], out: &mut [i16])
    requires { (2177 ≤ length bytes.now) × (length out.old ≡ 1024) }
    ensures { out.new ≡ table_of bytes.now }
{
    for (i, x) in out.iter_mut().enumerate() {
        *x = numbers::short(bytes, 129 + 2 * i);
    }
}

// p is 5 + 4 × 2^bits, for bits of 1 to 5.
fn points_fit(bits: u8, p: u32) -> bool
    ensures { result ≡ points_fit bits p }
{
    if bits < 1 {
        false
    } else if 5 < bits {
        false
    } else {
        p == 5 + (4 << bits)
    }
}

// The first n numbers of the points, zeros behind.
fn padded(bytes: &[u8], n: usize) -> [i16; 64]
    requires { (n ≤ 64) × (2178 + 2 * n ≤ length bytes.now) }
    ensures { result ≡ padded (points_from bytes.now n) }
{
    let mut t = [0; 64];
    for i in 0..n {
        t[i] = numbers::short(bytes, 2178 + 2 * i);
    }
    t
}

// The points, behind the table; p is their declared length.
pub(crate) fn points(bytes: &[u8], p: u32) -> Result<Points, Refusal>
    requires { 13 ≤ p }
    ensures { result ≡ points_answer bytes.now p }
{
    let end = 2177 + (p as usize);
    if bytes.len() < end {
        return Err(Refusal::Bodies);
    }
    let bits = bytes[2177];
    if !points_fit(bits, p) {
        return Err(Refusal::Points);
    }
    let k = numbers::number(bytes, end - 4);
    if 0x100_0000 < k {
        return Err(Refusal::Scale);
    }
    Ok(Points {
        bits,
        numbers: padded(bytes, 2 << bits),
        k,
    })
}
