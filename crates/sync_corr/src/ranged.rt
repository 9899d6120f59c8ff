// For crates above: the test of a word, and the correlations by rows that are made once for many symbols.
// `SmallRows` stands in contracts and not in a type: the rows are flat numbers so that the compiler makes vectors of the loop, which each symbol passes.
ghost use Rattle.std.specs.Prelude.{◌≡◌};
ghost use Rattle.sync_corr.specs.Rows.{SmallRows, Bounded, dots_of};

use crate::{Both, Corr, rows};

// Both correlations, in one loop: the compiler makes vectors of it.
pub fn dots(win: &[i16; 48], rows: &[i16; 192]) -> Both
    requires { SmallRows rows.now }
    ensures { (result ≡ dots_of win.now rows.now) × (Bounded 1572864 result.f) × (Bounded 1572864 result.s) }
{
    let mut fr: i32 = 0;
    let mut fi: i32 = 0;
    let mut sr: i32 = 0;
    let mut si: i32 = 0;
    for k in 0..48 {
        let x = win[k];
        fr = rows::added(fr, x, rows[k]);
        fi = rows::added(fi, x, rows[48 + k]);
        sr = rows::added(sr, x, rows[96 + k]);
        si = rows::added(si, x, rows[144 + k]);
    }
    Both {
        f: Corr { re: fr, im: fi },
        s: Corr { re: sr, im: si },
    }
}
