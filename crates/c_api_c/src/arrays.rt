// The entries on whole arrays.
ghost use Rattle.std.specs.Prelude.{◌≡◌};
ghost use Rattle.sync_corr.specs.Correlate.{correlate_answer};
ghost use Rattle.frame_map.specs.Reference.{reference_answer};
ghost use Rattle.c_api.specs.Arrays.{correlated, word_numbered, referred, unknowns};

use c_api::Numbers;
use c_api::arrays::{Equations, OneWord, Unknowns, Window, Words};

// 24 symbols with a word.
#[unsafe(no_mangle)]
pub extern "C" fn sv_correlate(window: Window, word: OneWord) -> Numbers
    ensures { result ≡ correlated (correlate_answer window.x word.w) }
{
    c_api::arrays::sv_correlate(window, word)
}

// What sync symbol k is trained against.
#[unsafe(no_mangle)]
pub extern "C" fn sv_reference(word: u8, k: usize, words: Words) -> Numbers
    ensures { result ≡ referred (reference_answer (word_numbered word) k words.f words.s) }
{
    c_api::arrays::sv_reference(word, k, words)
}

// The equations solved in f64.
#[unsafe(no_mangle)]
pub extern "C" fn sv_solve(e: Equations) -> Unknowns
    ensures { result ≡ unknowns e }
{
    c_api::arrays::sv_solve(e)
}
