// The entries on whole arrays, as C is given them. An array crosses within a struct by value, so none of another length can be given.
ghost use Rattle.std.specs.Prelude.{◌≡◌};
ghost use Rattle.sync_corr.specs.Correlate.{correlate_answer};
ghost use Rattle.frame_map.specs.Reference.{reference_answer};
ghost use Rattle.c_api.specs.Arrays.{correlated, word_numbered, referred, unknowns};

use crate::{Numbers, Two};
use angles::Symbol;
use solve_step::System;
use sync_corr::Corr;
use sync_heads::Word;

// 24 symbols, I before Q.
#[repr(C)]
#[derive(Clone, Copy)]
pub struct Window {
    pub x: [i16; 48],
}

// One sync word.
#[repr(C)]
#[derive(Clone, Copy)]
pub struct OneWord {
    pub w: [i8; 48],
}

// The F word and the S word.
#[repr(C)]
#[derive(Clone, Copy)]
pub struct Words {
    pub f: [i8; 48],
    pub s: [i8; 48],
}

// 11 equations: the matrix row by row, and the right side, the real part before the imaginary part.
#[repr(C)]
#[derive(Clone, Copy)]
pub struct Equations {
    pub a: [f64; 242],
    pub b: [f64; 22],
}

// The 11 unknowns; all 0 after a refusal, which is a number for C.
#[repr(C)]
#[derive(Clone, Copy)]
pub struct Unknowns {
    pub x: [f64; 22],
    pub refusal: u8,
}

impl Two for Corr {
    ghost first = { λ c. c.re };

    ghost second = { λ c. c.im };

    fn first(&self) -> i64 {
        i64::from(self.re)
    }

    fn second(&self) -> i64 {
        i64::from(self.im)
    }
}

impl Two for Symbol {
    ghost first = { λ y. y.i };

    ghost second = { λ y. y.q };

    fn first(&self) -> i64 {
        i64::from(self.i)
    }

    fn second(&self) -> i64 {
        i64::from(self.q)
    }
}

// 24 symbols with a word.
pub fn sv_correlate(window: Window, word: OneWord) -> Numbers
    ensures { result ≡ correlated (correlate_answer window.x word.w) }
{
    crate::of_two(sync_corr::correlate(window.x, word.w))
}

// 0 the S word, 1 the F word, any other number the F word negated: a number, since C gives it.
fn word_numbered(n: u8) -> Word
    ensures { result ≡ word_numbered n }
{
    match n {
        0 => Word::Ssync,
        1 => Word::Fsync,
        _ => Word::NotFsync,
    }
}

// What sync symbol k is trained against.
pub fn sv_reference(word: u8, k: usize, words: Words) -> Numbers
    ensures { result ≡ referred (reference_answer (word_numbered word) k words.f words.s) }
{
    crate::of_two(frame_map::reference(word_numbered(word), k, words.f, words.s))
}

// The equations solved in f64.
pub fn sv_solve(e: Equations) -> Unknowns
    ensures { result ≡ unknowns e }
{
    let a = e.a;
    let b = e.b;
    match solve_step::solve(System { a, b }) {
        Ok(x) => Unknowns { x, refusal: 0 },
        Err(why) => Unknowns {
            x: [0.0; 22],
            refusal: why.number(),
        },
    }
}
