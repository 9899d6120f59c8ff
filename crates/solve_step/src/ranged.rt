// Pairs of the flat arrays: of the matrix, of the right side and of the unknowns.
ghost use Rattle.std.specs.Prelude.{◌≡◌, ◌+◌, ◌*◌, ◌<◌};
ghost use Rattle.solve_step.specs.Complex.{entry_at, with_entry};

use crate::complex::Complex;

pub(crate) fn entry<const N: usize>(a: &[f64; N], k: usize) -> Complex
    requires { 2 * k + 1 < N }
    ensures { result ≡ entry_at a.now k }
{
    Complex {
        re: a[2 * k],
        im: a[2 * k + 1],
    }
}

pub fn set_entry<const N: usize>(a: &mut [f64; N], k: usize, v: Complex)
    requires { 2 * k + 1 < N }
    ensures { a.new ≡ with_entry a.old k v }
{
    a[2 * k] = v.re;
    a[2 * k + 1] = v.im;
}
