// For the alignment, which proves the ranges.
ghost use Rattle.std.specs.Prelude.{◌≡◌, true, ◌<◌};
ghost use Rattle.frame_line.specs.Line.{placed_at, joined, gap_at};
ghost use Rattle.frame_line.specs.Ranges.{last_in_range};

use crate::{Meta, Metas};

// What stands at place k once m has come behind n others.
fn placed(n: u32, k: u32, m: Meta, old: Meta) -> Meta
    ensures { result ≡ placed_at n k m old }
{
    if n == k { m } else { old }
}

// One more, where fewer than five wait.
pub fn join(w: Metas, m: Meta) -> Metas
    requires { w.count < 5 }
    ensures { result ≡ joined w m }
{
    let n = w.count;
    Metas {
        count: n + 1,
        first: placed(n, 0, m, w.first),
        second: placed(n, 1, m, w.second),
        third: placed(n, 2, m, w.third),
        fourth: placed(n, 3, m, w.fourth),
        fifth: placed(n, 4, m, w.fifth),
    }
}

// Whether a symbol at this position does not follow the last one.
pub fn gap(last: Option<u64>, at: u64) -> bool
    requires { last_in_range last ≡ true }
    ensures { result ≡ gap_at last at }
{
    match last {
        None => false,
        Some(a) => a + 1 != at,
    }
}
