// What the crates above share and needs nothing of its caller.
ghost use Rattle.std.specs.Prelude.{◌≡◌, true, ◌<◌};
ghost use Rattle.frame_line.specs.Line.{no_metas, meta_of, moved};
ghost use Rattle.frame_line.specs.Ranges.{meta_in_range, place_in_range, metas_in_range, last_in_range};

use crate::{Meta, Metas};
use phase::Corrected;
use sync_heads::Word;

pub fn none() -> Metas
    ensures { result ≡ no_metas }
{
    let blank = Meta {
        at: 0,
        j: 0,
        word: Word::Ssync,
        slot: None,
    };
    Metas {
        count: 0,
        first: blank,
        second: blank,
        third: blank,
        fourth: blank,
        fifth: blank,
    }
}

// Field by field, since a Corrected has its value besides. A From would hold the same four lines, and crate frame calls this name.
pub fn meta_of(c: Corrected) -> Meta
    ensures { result ≡ meta_of c }
{
    Meta {
        at: c.at,
        j: c.j,
        word: c.word,
        slot: c.slot,
    }
}

// The oldest goes, and one comes behind the others.
pub fn move_up(w: Metas, m: Meta) -> Metas
    ensures { result ≡ moved w m }
{
    Metas {
        first: w.second,
        second: w.third,
        third: w.fourth,
        fourth: w.fifth,
        fifth: m,
        ..w
    }
}

fn meta_in_range(k: u32, m: Meta) -> bool
    ensures { result ≡ meta_in_range k m }
{
    (k as u64 <= m.at) & (m.at < 4611686018427387904) & (m.j <= 9295)
}

fn place_in_range(count: u32, k: u32, m: Meta) -> bool
    ensures { result ≡ place_in_range count k m }
{
    (count <= k) | meta_in_range(k, m)
}

pub fn in_range(w: Metas) -> bool
    ensures { result ≡ metas_in_range w }
{
    let n = w.count;
    (n <= 5)
        & place_in_range(n, 0, w.first)
        & place_in_range(n, 1, w.second)
        & place_in_range(n, 2, w.third)
        & place_in_range(n, 3, w.fourth)
        & place_in_range(n, 4, w.fifth)
}

pub fn last_in_range(last: Option<u64>) -> bool
    ensures { result ≡ last_in_range last }
{
    match last {
        None => true,
        Some(a) => a < 4611686018427387904,
    }
}
