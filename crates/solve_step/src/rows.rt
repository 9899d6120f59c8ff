// One column of the elimination: rows change places, and the pivot's row c is taken off each row below.
ghost use Rattle.std.specs.Prelude.{◌≡◌, ◌+◌, ◌-◌, ◌*◌, ◌<◌};
ghost use Rattle.solve_step.specs.Eliminate.{entry_swap, swap_from, entry_less, row_from, system_of, row_step, rows_from, column_step};

use crate::complex::Complex;
use crate::ranged;

fn swap_entries<const N: usize>(a: &mut [f64; N], i: usize, j: usize)
    requires { (2 * i + 1 < N) × (2 * j + 1 < N) }
    ensures { a.new ≡ entry_swap a.old i j }
{
    let x = ranged::entry(a, i);
    let y = ranged::entry(a, j);
    ranged::set_entry(a, i, y);
    ranged::set_entry(a, j, x);
}

fn swap_rows(a: &mut [f64; 242], c: usize, p: usize)
    requires { (c < 11) × (p < 11) }
    ensures { a.new ≡ swap_from a.old c p 0 11 }
{
    for k in 0..11 {
        swap_entries(a, c * 11 + k, p * 11 + k);
    }
}

// Entry i less f times entry j.
fn update_entry<const N: usize>(a: &mut [f64; N], i: usize, j: usize, f: Complex)
    requires { (2 * i + 1 < N) × (2 * j + 1 < N) }
    ensures { a.new ≡ entry_less a.old i j f }
{
    let x = ranged::entry(a, i);
    let v = ranged::entry(a, j);
    ranged::set_entry(a, i, x.subtract(f.multiply(v)));
}

// From column c on; column c itself too, which leaves what rounding leaves and is never read again.
fn update_row(a: &mut [f64; 242], c: usize, r: usize, f: Complex)
    requires { (c < 11) × (r < 11) }
    ensures { a.new ≡ row_from a.old c r f c (11 - c) }
{
    for k in c..11 {
        update_entry(a, r * 11 + k, c * 11 + k, f);
    }
}

fn eliminate_row(a: &mut [f64; 242], b: &mut [f64; 22], c: usize, r: usize)
    requires { (c < 11) × (r < 11) }
    ensures { system_of a.new b.new ≡ row_step (system_of a.old b.old) c r }
{
    let x = ranged::entry(a, r * 11 + c);
    let d = ranged::entry(a, c * 11 + c);
    let f = x.quotient(d);
    update_row(a, c, r, f);
    update_entry(b, r, c, f);
}

fn eliminate_rows(a: &mut [f64; 242], b: &mut [f64; 22], c: usize)
    requires { c < 11 }
    ensures { system_of a.new b.new ≡ rows_from (system_of a.old b.old) c (c + 1) (11 - (c + 1)) }
{
    for r in c + 1..11 {
        eliminate_row(a, b, c, r);
    }
}

// Column c with its pivot in row p.
pub(crate) fn eliminate_column(a: &mut [f64; 242], b: &mut [f64; 22], c: usize, p: usize)
    requires { (c < 11) × (p < 11) }
    ensures { system_of a.new b.new ≡ column_step (system_of a.old b.old) c p }
{
    swap_rows(a, c, p);
    swap_entries(b, c, p);
    eliminate_rows(a, b, c);
}
