// Back substitution, from the last row up.
ghost use Rattle.std.specs.Prelude.{◌≡◌, ◌+◌, ◌-◌, ◌<◌};
ghost use Rattle.solve_step.specs.Back.{rest_from, unknown_at, back_from, none_yet};

use crate::complex::Complex;
use crate::{System, ranged};

// s less the products of row r with the unknowns after r.
fn rest(a: &[f64; 242], x: &[f64; 22], r: usize, s: Complex) -> Complex
    requires { r < 11 }
    ensures { result ≡ rest_from a.now x.now r (r + 1) s (11 - (r + 1)) }
{
    let mut t = s;
    for k in r + 1..11 {
        let v = ranged::entry(a, r * 11 + k).multiply(ranged::entry(x, k));
        t = t.subtract(v);
    }
    t
}

fn unknown(a: &[f64; 242], b: &[f64; 22], x: &[f64; 22], r: usize) -> Complex
    requires { r < 11 }
    ensures { result ≡ unknown_at a.now b.now x.now r }
{
    let v = ranged::entry(b, r);
    let d = ranged::entry(a, r * 11 + r);
    rest(a, x, r, v).quotient(d)
}

pub(crate) fn back(s: System) -> [f64; 22]
    ensures { result ≡ back_from s none_yet 11 }
{
    let mut x = [0.0f64; 22];
    for r in (0..11).rev() {
        let v = unknown(&s.a, &s.b, &x, r);
        ranged::set_entry(&mut x, r, v);
    }
    x
}
