// For eq, which proves the ranges. The line is lent, newest symbol first.
ghost use Rattle.std.specs.Prelude.{◌≡◌, ◌+◌, ◌*◌, ◌-◌, ◌≤◌, ◌<◌, ◌^◌, nat_abs, ◌+ℤ◌, length};
ghost use Rattle.eq_train.specs.Train.{conj_product, row_products, upper_products, right_products, trained_sums};
ghost use Rattle.eq_train.specs.Ranges.{SumsOk};
ghost use Rattle.eq_train.specs.Steps.{added_from, Room};

use fx::Parts;
use sums::Sums;

// conj(a) times b.
fn conj_product(ar: i16, ai: i16, br: i16, bi: i16) -> Parts
    ensures { (result ≡ conj_product ar ai br bi) × (nat_abs result.re ≤ 2 ^ 31) × (nat_abs result.im ≤ 2 ^ 31) }
{
    let xr = ar as i64;
    let xi = ai as i64;
    let yr = br as i64;
    let yi = bi as i64;
    Parts {
        re: xr * yr + xi * yi,
        im: xr * yi - xi * yr,
    }
}

// A function, since a parameter has a range and an element of a lent array has not.
fn plus(a: i64, b: i64) -> i64
    requires { (nat_abs a ≤ 2 ^ 54) × (nat_abs b ≤ 2 ^ 31) }
    ensures { result ≡ a +ℤ b }
{
    a + b
}

// The products of row r, from its diagonal on, added from place at on.
fn add_row(s: &mut [i64; 132], line: &[i16; 22], r: usize, at: usize)
    requires { (Room s.old at 132) × (length line.now ≡ 22) × (r < 11) × (at + 2 * (11 - r) ≤ 132) }
    ensures { (s.new ≡ added_from s.old at (row_products line.now r r (11 - r))) × (Room s.new (at + 2 * (11 - r)) 132) }
{
    let ar = line[2 * r];
    let ai = line[2 * r + 1];
    let mut k = at;
    for c in r..11 {
        let v = conj_product(ar, ai, line[2 * c], line[2 * c + 1]);
        s[k] = plus(s[k], v.re);
        s[k + 1] = plus(s[k + 1], v.im);
        k += 2;
    }
}

// Written out, for then the compiler knows each row and unrolls it: 1,174 instructions a training, where a loop takes 1,653.
fn add_rows(s: &mut [i64; 132], line: &[i16; 22])
    requires { (Room s.old 0 132) × (length line.now ≡ 22) }
    ensures { s.new ≡ added_from s.old 0 (upper_products line.now 0 11) }
{
    add_row(s, line, 0, 0);
    add_row(s, line, 1, 22);
    add_row(s, line, 2, 42);
    add_row(s, line, 3, 60);
    add_row(s, line, 4, 76);
    add_row(s, line, 5, 90);
    add_row(s, line, 6, 102);
    add_row(s, line, 7, 112);
    add_row(s, line, 8, 120);
    add_row(s, line, 9, 126);
    add_row(s, line, 10, 130);
}

fn add_right(p: &mut [i64; 22], line: &[i16; 22], di: i16, dq: i16)
    requires { (Room p.old 0 22) × (length line.now ≡ 22) }
    ensures { p.new ≡ added_from p.old 0 (right_products line.now di dq 0 11) }
{
    for r in 0..11 {
        let v = conj_product(line[2 * r], line[2 * r + 1], di, dq);
        p[2 * r] = plus(p[2 * r], v.re);
        p[2 * r + 1] = plus(p[2 * r + 1], v.im);
    }
}

// What one training symbol with reference d adds.
pub fn train(s: Sums, line: &[i16; 22], di: i16, dq: i16) -> Sums
    requires { (SumsOk s) × (length line.now ≡ 22) }
    ensures { result ≡ trained_sums s line.now di dq }
{
    let mut r = s.r;
    let mut p = s.p;
    add_rows(&mut r, line);
    add_right(&mut p, line, di, dq);
    Sums {
        frame: s.frame,
        count: s.count + 1,
        r,
        p,
    }
}
