// The filter for many symbols: rows are made of the taps once, and each part of an output is then two sums of products of 16 bits, of which
// the compiler makes vectors.
ghost use Rattle.std.specs.Prelude.{◌++◌, ◌≡◌, ◌+◌, ◌*◌, ◌≤◌, ◌<◌, ◌^◌, nat_abs, ◌+ℤ◌, ◌*ℤ◌, length, drop};
ghost use Rattle.laws.specs.Ranges.{firsts};
ghost use Rattle.eq_fir.specs.Rows.{byte_of, factor_at, padded, rows_of, dots_of, finished_of, output_by, outputs_by, Bytes};

use crate::Dots;
use angles::Symbol;

// The high or the low byte.
fn byte(high: bool, w: i16) -> i16
    ensures { (result ≡ byte_of high w) × (nat_abs result ≤ 255) }
{
    let h = w >> 8;
    if high { h } else { w - h * 256 }
}

fn factor(t: &[i16; 24], imag: bool, high: bool, k: usize) -> i16
    requires { (length t.now ≡ 24) × (k < 24) }
    ensures { (result ≡ factor_at t.now imag high k) × (nat_abs result ≤ 255) }
{
    if imag {
        if k % 2 == 0 {
            byte(high, t[k + 1])
        } else {
            byte(high, t[k - 1])
        }
    } else if k % 2 == 0 {
        byte(high, t[k])
    } else {
        0 - byte(high, t[k])
    }
}

fn pad(l: &[i16; 22]) -> [i16; 24]
    requires { length l.now ≡ 22 }
    ensures { result ≡ padded l.now }
{
    let mut r = [0i16; 24];
    for k in 0..22 {
        r[k] = l[k];
    }
    r
}

// Four rows of 24: the high and the low bytes for the real part, then for the imaginary part.
pub fn rows(taps: &[i16; 22]) -> [i16; 96]
    requires { length taps.now ≡ 22 }
    ensures { (result ≡ rows_of taps.now) × Bytes result }
{
    let t = pad(taps);
    let mut r = [0i16; 96];
    for j in 0..96 {
        r[j] = factor(&t, 48 <= j, j / 24 % 2 == 0, j % 24);
    }
    r
}

fn added(sum: i32, x: i16, y: i16) -> i32
    requires { (nat_abs sum ≤ 2 ^ 28) × (nat_abs y ≤ 255) }
    ensures { result ≡ sum +ℤ x *ℤ y }
{
    sum + (x as i32) * (y as i32)
}

// All four sums, in one loop.
fn dots(l: &[i16; 24], rows: &[i16; 96]) -> Dots
    requires { Bytes rows.now }
    ensures { result ≡ dots_of l.now rows.now }
{
    let mut a: i32 = 0;
    let mut b: i32 = 0;
    let mut c: i32 = 0;
    let mut d: i32 = 0;
    for k in 0..24 {
        let x = l[k];
        a = added(a, x, rows[k]);
        b = added(b, x, rows[24 + k]);
        c = added(c, x, rows[48 + k]);
        d = added(d, x, rows[72 + k]);
    }
    Dots {
        rh: a,
        rl: b,
        ih: c,
        il: d,
    }
}

// A part of an output: both sums together, rounded by the taps' 14 bits and saturated.
fn finished(high: i32, low: i32) -> i16
    ensures { result ≡ finished_of high low }
{
    fx::plain::sat16(fx::ranged::round_shift((high as i64) * 256 + (low as i64), 14))
}

// The output for the line as it is, by the rows of the taps. They have to come by a reference from outside the caller's loop: of a local array
// the compiler would keep the entries widened, and lose the products of 16 bits.
pub fn output(rows: &[i16; 96], line: &[i16; 22]) -> Symbol
    requires { Bytes rows.now × (length line.now ≡ 22) }
    ensures { result ≡ output_by rows.now line.now }
{
    let l = pad(line);
    let s = dots(&l, rows);
    Symbol {
        i: finished(s.rh, s.rl),
        q: finished(s.ih, s.il),
    }
}

// All four sums of the 24 numbers from a place of a buffer on. It is not one function with `dots`: what a hot loop calls has one call site,
// since a function with two stayed a call, and cost five times as much.
fn dots_at(l: &[i16], at: usize, rows: &[i16; 96]) -> Dots
    requires { Bytes rows.now × (at + 24 ≤ length l.now) }
    ensures { result ≡ dots_of (padded (drop at l.now)) rows.now }
{
    let mut a: i32 = 0;
    let mut b: i32 = 0;
    let mut c: i32 = 0;
    let mut d: i32 = 0;
    for k in 0..24 {
        let x = l[at + k];
        a = added(a, x, rows[k]);
        b = added(b, x, rows[24 + k]);
        c = added(c, x, rows[48 + k]);
        d = added(d, x, rows[72 + k]);
    }
    Dots {
        rh: a,
        rl: b,
        ih: c,
        il: d,
    }
}

// The output for the line that begins at a place of a buffer. What stands behind the line is multiplied by the rows' last two.
fn output_at(rows: &[i16; 96], l: &[i16], at: usize) -> Symbol
    requires { Bytes rows.now × (at + 24 ≤ length l.now) }
    ensures { result ≡ output_by rows.now (drop at l.now) }
{
    let s = dots_at(l, at, rows);
    Symbol {
        i: finished(s.rh, s.rl),
        q: finished(s.ih, s.il),
    }
}

// The outputs for n lines within a buffer. No line is moved, so that none is read right after it was written, which costs more than the
// products.
pub fn outputs(rows: &[i16; 96], l: &[i16], end: usize, n: usize, out: &mut [i16])
    requires { Bytes rows.now × (end + 24 ≤ length l.now) × (2 * n ≤ end + 2) × (2 * n ≤ length out.old) }
    ensures { out.new ≡ firsts (outputs_by rows.now l.now end) (2 * n) ++ drop (2 * n) out.old }
{
    for k in 0..n {
        let z = output_at(rows, l, end - 2 * k);
        out[2 * k] = z.i;
        out[2 * k + 1] = z.q;
    }
}
