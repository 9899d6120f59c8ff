// For eq and the receiver: line and taps are lent, pairs of I and Q.
ghost use Rattle.std.specs.Prelude.{◌≡◌, ◌+◌, ◌≤◌, ◌^◌, nat_abs, ◌+ℤ◌, ◌-ℤ◌, ◌*ℤ◌, length};
ghost use Rattle.eq_fir.specs.Fir.{line_after, filtered, output_of};

use angles::Symbol;

// One more symbol, at the front; the oldest goes.
pub fn shift(line: &mut [i16; 22], i: i16, q: i16)
    requires { length line.old ≡ 22 }
    ensures { line.new ≡ line_after line.old i q }
{
    for k in (2..22).rev() {
        line[k] = line[k - 2];
    }
    line[0] = i;
    line[1] = q;
}

// The real part of a tap times a symbol, added. A function, since a parameter has a range, which an element of a lent array has not.
fn add_re(a: i64, wr: i16, wi: i16, xr: i16, xi: i16) -> i64
    requires { nat_abs a ≤ 2 ^ 40 }
    ensures { (result ≡ a +ℤ (wr *ℤ xr -ℤ wi *ℤ xi)) × (nat_abs result ≤ nat_abs a + 2 ^ 31) }
{
    a + ((wr as i64) * (xr as i64) - (wi as i64) * (xi as i64))
}

// The imaginary part likewise.
fn add_im(a: i64, wr: i16, wi: i16, xr: i16, xi: i16) -> i64
    requires { nat_abs a ≤ 2 ^ 40 }
    ensures { (result ≡ a +ℤ (wr *ℤ xi +ℤ wi *ℤ xr)) × (nat_abs result ≤ nat_abs a + 2 ^ 31) }
{
    a + ((wr as i64) * (xi as i64) + (wi as i64) * (xr as i64))
}

// The sum of all taps times their symbols. Its parts have a loop each: with one for both, the compiler keeps too many numbers at a time. They
// differ in the product's formula, so that one function of both would take the formula as a closure, which is no plainer.
fn sum_re(taps: &[i16; 22], line: &[i16; 22]) -> i64
    requires { (length taps.now ≡ 22) × (length line.now ≡ 22) }
    ensures { (result ≡ (filtered taps.now line.now 11).re) × (nat_abs result ≤ 2 ^ 36) }
{
    let mut a: i64 = 0;
    for k in 0..11 {
        a = add_re(
            a,
            taps[2 * k],
            taps[2 * k + 1],
            line[2 * k],
            line[2 * k + 1],
        );
    }
    a
}

fn sum_im(taps: &[i16; 22], line: &[i16; 22]) -> i64
    requires { (length taps.now ≡ 22) × (length line.now ≡ 22) }
    ensures { (result ≡ (filtered taps.now line.now 11).im) × (nat_abs result ≤ 2 ^ 36) }
{
    let mut a: i64 = 0;
    for k in 0..11 {
        a = add_im(
            a,
            taps[2 * k],
            taps[2 * k + 1],
            line[2 * k],
            line[2 * k + 1],
        );
    }
    a
}

// The output for the line as it is.
pub fn output(taps: &[i16; 22], line: &[i16; 22]) -> Symbol
    requires { (length taps.now ≡ 22) × (length line.now ≡ 22) }
    ensures { result ≡ output_of taps.now line.now }
{
    let re = sum_re(taps, line);
    let im = sum_im(taps, line);
    Symbol {
        i: fx::plain::sat16(fx::ranged::round_shift(re, 14)),
        q: fx::plain::sat16(fx::ranged::round_shift(im, 14)),
    }
}
