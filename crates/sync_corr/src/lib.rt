// Correlation of 24 symbols with the sync words, after `correlate` of chain/sync.rs. Symbols and words are lists of 24 pairs, I before Q:
// flat, as C hands them in and as the loop over them needs them.
#![tactic(auto)]

pub mod plain;
pub mod ranged;
mod rows;

ghost use Rattle.std.specs.Prelude.{◌≡◌};
ghost use Rattle.sync_corr.specs.Correlate.{correlate_answer};

use refusal::Refusal;

#[derive(Clone, Copy)]
pub struct Corr {
    pub re: i32,
    pub im: i32,
}

// The correlations with the F word and with the S word.
#[derive(Clone, Copy)]
pub struct Both {
    pub f: Corr,
    pub s: Corr,
}

pub fn correlate(r: [i16; 48], w: [i8; 48]) -> Result<Corr, Refusal>
    ensures { result ≡ correlate_answer r w }
{
    if !plain::ones(&w) {
        return Err(Refusal::Words);
    }
    Ok(ranged::dots(&r, &plain::rows(&w, &w)).f)
}
