// What the crates above share and needs nothing of its caller.
ghost use Rattle.std.specs.Prelude.{◌≡◌};
ghost use Rattle.sync_corr.specs.Correlate.{ones_of, size_of};
ghost use Rattle.sync_corr.specs.Rows.{rows_of};

use crate::{Both, rows};

// Each entry is 1 or -1.
pub fn ones(w: &[i8; 48]) -> bool
    ensures { result ≡ ones_of w.now }
{
    let mut all = true;
    for k in 0..48 {
        let v = w[k];
        all = all & ((v == 1) | (v == -1));
    }
    all
}

// The two words as four rows of 48, so that each part of a correlation is one sum of products of 16 bits.
// Not one function with the rows of `eq_fir`: those split taps into bytes, these take signs from words, and only the loop over places is alike.
pub fn rows(f: &[i8; 48], s: &[i8; 48]) -> [i16; 192]
    ensures { result ≡ rows_of f.now s.now }
{
    let mut r = [0i16; 192];
    for j in 0..192 {
        r[j] = rows::row_at(f, s, j);
    }
    r
}

// The larger size of the two.
pub fn size(b: Both) -> u32
    ensures { result ≡ size_of b }
{
    let f = fx::ranged::mag_approx(b.f.re as i64, b.f.im as i64);
    let s = fx::ranged::mag_approx(b.s.re as i64, b.s.im as i64);
    if f < s { s as u32 } else { f as u32 }
}
