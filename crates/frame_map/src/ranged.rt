// For the entries and the receiver, which prove the ranges.
ghost use Rattle.std.specs.Prelude.{◌≡◌, true, ◌≤◌, ◌<◌, nat_abs, Ok};
ghost use Rattle.sync_corr.specs.Correlate.{ones_of};
ghost use Rattle.frame_map.specs.Map.{part_in, runs, start_seen, part_of};
ghost use Rattle.frame_map.specs.Reference.{scaled_of, reference_of};

use crate::SlotPart;
use angles::Symbol;
use sync_heads::Word;

// The part of place x behind sync and pilots: 66 times 136 main and 4 TMCC symbols.
fn behind(x: usize) -> SlotPart
    requires { x < 9240 }
    ensures { Ok result ≡ part_in (runs 66) start_seen x }
{
    let r = x / 140;
    let p = x % 140;
    if p < 136 {
        SlotPart::Main((r * 136 + p) as u16)
    } else {
        SlotPart::Tmcc((r * 4 + (p - 136)) as u16)
    }
}

pub fn part(j: usize) -> SlotPart
    requires { j < 9296 }
    ensures { Ok result ≡ part_of j }
{
    if j < 24 {
        SlotPart::Sync(j as u16)
    } else if j < 56 {
        SlotPart::Pilot((j - 24) as u16)
    } else {
        behind(j - 56)
    }
}

// The entry of the slot's own word times 724.
fn scaled(word: Word, f: i8, s: i8) -> i16
    requires { (nat_abs f ≤ 1) × (nat_abs s ≤ 1) }
    ensures { result ≡ scaled_of word f s }
{
    match word {
        Word::Ssync => (s as i16) * 724,
        Word::Fsync => (f as i16) * 724,
        Word::NotFsync => -((f as i16) * 724),
    }
}

// What sync symbol k is trained against.
pub fn reference(word: Word, k: usize, f: &[i8; 48], s: &[i8; 48]) -> Symbol
    requires { (k < 24) × (ones_of f.now ≡ true) × (ones_of s.now ≡ true) }
    ensures { result ≡ reference_of word k f.now s.now }
{
    let a = 2 * k;
    let b = 2 * k + 1;
    Symbol {
        i: scaled(word, f[a], s[a]),
        q: scaled(word, f[b], s[b]),
    }
}
