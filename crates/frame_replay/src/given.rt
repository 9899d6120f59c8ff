// What the numbers of a call hold, each taken to the width of its field by its low bits.
ghost use Rattle.std.specs.Prelude.{◌≡◌, ◌+◌, ◌≤◌};
ghost use Rattle.frame_replay.specs.Given.{symbol_of, corrected_of};

use angles::Symbol;
use phase::Corrected;
use wire::Field;

fn symbol_at(p: &[u64; 24], k: usize) -> Symbol
    requires { k + 2 ≤ 24 }
    ensures { result ≡ symbol_of p.now k }
{
    Symbol {
        i: i16::of_bits(p[k]),
        q: i16::of_bits(p[k + 1]),
    }
}

// The corrected symbol of numbers 1 to 12.
pub(crate) fn corrected_at(p: &[u64; 24]) -> Corrected
    ensures { result ≡ corrected_of p.now }
{
    let m = frame_wire::ranged::meta_at(p, 1);
    let w = m.word;
    let s = m.slot;
    let r = symbol_at(p, 7);
    let y = symbol_at(p, 11);
    Corrected {
        at: m.at,
        word: w,
        slot: s,
        j: m.j,
        r: r,
        phi: u32::of_bits(p[9]),
        gain: i64::of_bits(p[10]),
        y: y,
    }
}
