// Words, slots and correlations as numbers of calls and answers, for the replay programs.
#![tactic(auto, unfolding(crate::specs::Slots::word_number, crate::specs::Slots::slot_shown))]

pub mod ranged;

ghost use Rattle.std.specs.Prelude.{◌≡◌};
ghost use Rattle.slot_wire.specs.Slots.{word_of, word_number, slot_by, slot_shown, corr_by};

use sync_corr::Corr;
use sync_heads::{SlotNumber, Word};
use wire::Field;

// Whether the slot is known, its number and its frame: numbers of an answer's bytes.
#[derive(Clone, Copy)]
pub struct SlotShown {
    pub known: u64,
    pub number: u64,
    pub frame: u64,
}

// No `From`: trait and both types stand in other crates. The numbers are those of the bytes of calls and answers.
pub fn word_of(n: u64) -> Word
    ensures { result ≡ word_of n }
{
    match n {
        0 => Word::Ssync,
        1 => Word::Fsync,
        _ => Word::NotFsync,
    }
}

pub fn word_number(w: Word) -> u64
    ensures { result ≡ word_number w }
{
    match w {
        Word::Ssync => 0,
        Word::Fsync => 1,
        Word::NotFsync => 2,
    }
}

// The slot of three numbers, wherever a call holds them: whether it is known, its number, its frame.
pub fn slot(known: u64, number: u64, frame: u64) -> Option<SlotNumber>
    ensures { result ≡ slot_by known number frame }
{
    if known == 0 {
        None
    } else {
        Some(SlotNumber {
            number: u8::of_bits(number),
            frame: u32::of_bits(frame),
        })
    }
}

// The correlation of two numbers.
pub fn corr(re: u64, im: u64) -> Corr
    ensures { result ≡ corr_by re im }
{
    Corr {
        re: i32::of_bits(re),
        im: i32::of_bits(im),
    }
}

pub fn slot_shown(s: Option<SlotNumber>) -> SlotShown
    ensures { result ≡ slot_shown s }
{
    match s {
        None => SlotShown {
            known: 0,
            number: 0,
            frame: 0,
        },
        Some(s) => SlotShown {
            known: 1,
            number: s.number as u64,
            frame: s.frame as u64,
        },
    }
}
