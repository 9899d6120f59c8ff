// The system that the sums stand for.
ghost use Rattle.std.specs.Prelude.{◌≡◌, ◌+◌, ◌*◌, ◌<◌, ◌≤◌};
ghost use Rattle.sums.specs.Sums.{upper_at};
ghost use Rattle.solve.specs.System.{Narrow, pair_of, entry_of, matrix_of, right_of, sums_system};

use solve_step::System;
use solve_step::complex::Complex;
use sums::Sums;

// The place of row r and column c, from r on, among the upper entries.
fn upper(r: usize, c: usize) -> usize
    requires { (r ≤ c) × (c < 11) }
    ensures { (result ≡ upper_at r c) × (result < 66) }
{
    r * 11 - r * (r + 1) / 2 + c
}

// Pair k of a list of sums. A sum of size up to 2^53 is a double: `as` loses nothing.
fn pair<const N: usize>(l: &[i64; N], k: usize) -> Complex
    requires { (2 * k + 1 < N) × Narrow l.now }
    ensures { result ≡ pair_of l.now k }
{
    Complex {
        re: l[2 * k] as f64,
        im: l[2 * k + 1] as f64,
    }
}

// On the diagonal too it is the conjugate.
fn sum_entry(l: &[i64; 132], r: usize, c: usize) -> Complex
    requires { (r < 11) × (c < 11) × Narrow l.now }
    ensures { result ≡ entry_of l.now r c }
{
    if r < c {
        pair(l, upper(r, c))
    } else {
        pair(l, upper(c, r)).conjugate()
    }
}

fn matrix(l: &[i64; 132]) -> [f64; 242]
    requires { Narrow l.now }
    ensures { result ≡ matrix_of l.now }
{
    let mut a = [0.0f64; 242];
    for k in 0..121 {
        let v = sum_entry(l, k / 11, k % 11);
        solve_step::ranged::set_entry(&mut a, k, v);
    }
    a
}

fn right_side(l: &[i64; 22]) -> [f64; 22]
    requires { Narrow l.now }
    ensures { result ≡ right_of l.now }
{
    let mut b = [0.0f64; 22];
    for k in 0..11 {
        let v = pair(l, k);
        solve_step::ranged::set_entry(&mut b, k, v);
    }
    b
}

pub(crate) fn system(s: Sums) -> System
    requires { (Narrow s.r) × (Narrow s.p) }
    ensures { result ≡ sums_system s }
{
    System {
        a: matrix(&s.r),
        b: right_side(&s.p),
    }
}
