// The rows of the two words, entry by entry.
ghost use Rattle.std.specs.Prelude.{◌≡◌, ◌+◌, ◌≤◌, ◌<◌, ◌^◌, nat_abs, ◌+ℤ◌, ◌*ℤ◌};
ghost use Rattle.sync_corr.specs.Correlate.{at};
ghost use Rattle.sync_corr.specs.Rows.{turned_at, row_at};

// Entry j of the row of a word's real part.
fn plain(w: &[i8; 48], j: usize) -> i16
    requires { j < 48 }
    ensures { result ≡ at w.now j }
{
    let a = w[j];
    a as i16
}

// Entry j of the row of its imaginary part.
fn turned(w: &[i8; 48], j: usize) -> i16
    requires { j < 48 }
    ensures { result ≡ turned_at w.now j }
{
    if j % 2 == 0 {
        let a = w[j + 1];
        -(a as i16)
    } else {
        let b = w[j - 1];
        b as i16
    }
}

pub(crate) fn row_at(f: &[i8; 48], s: &[i8; 48], j: usize) -> i16
    requires { j < 192 }
    ensures { result ≡ row_at f.now s.now j }
{
    if j < 48 {
        plain(f, j)
    } else if j < 96 {
        turned(f, j - 48)
    } else if j < 144 {
        plain(s, j - 96)
    } else {
        turned(s, j - 144)
    }
}

// sum + x y, for a y of size at most 1. That of `eq_fir` has other bounds: one for both would prove neither's sum to fit.
pub(crate) fn added(sum: i32, x: i16, y: i16) -> i32
    requires { (nat_abs sum ≤ 2 ^ 30) × (nat_abs y ≤ 1) }
    ensures { result ≡ sum +ℤ (x *ℤ y) }
{
    sum + (x as i32) * (y as i32)
}
