// What waits in the alignment as numbers of calls and answers, for the replay programs.
#![tactic(auto)]

pub mod ranged;

ghost use Rattle.std.specs.Prelude.{◌≡◌};
ghost use Rattle.frame_wire.specs.Line.{last_of, count_put, last_shown};

use frame_line::Metas;
use wire::Field;

// Whether there is a last position, and that position: numbers of the bytes of an answer.
#[derive(Clone, Copy)]
pub struct LastShown {
    pub known: u64,
    pub at: u64,
}

pub fn last_shown(l: Option<u64>) -> LastShown
    ensures { result ≡ last_shown l }
{
    match l {
        None => LastShown { known: 0, at: 0 },
        Some(a) => LastShown { known: 1, at: a },
    }
}

// The last position, of numbers 2 and 3.
pub fn last_at(p: &[u64; 24]) -> Option<u64>
    ensures { result ≡ last_of p.now }
{
    (p[2] != 0).then_some(p[3])
}

// As many symbols that wait as number 1 tells.
pub fn count_put(w: Metas, p: &[u64; 24]) -> Metas
    ensures { result ≡ count_put w p.now }
{
    Metas {
        count: u32::of_bits(p[1]),
        ..w
    }
}
