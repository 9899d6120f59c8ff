// What the crates above share and needs nothing of its caller.
ghost use Rattle.std.specs.Prelude.{◌≡◌};
ghost use Rattle.eq.specs.Eq.{started_eq, pushed_eq, output_at, with_sums, closed_eq, loaded_eq};
ghost use Rattle.eq.specs.Ranges.{eq_in_range};
ghost use Rattle.eq.specs.Answers.{range_refusal, train_refusal};

use crate::{Closed, Equaliser};
use angles::Symbol;
use refusal::Refusal;
use sums::Sums;

pub fn started(taps: [i16; 22], from: Option<u32>) -> Equaliser
    ensures { result ≡ started_eq taps from }
{
    Equaliser {
        line: [0i16; 22],
        filled: 0,
        taps,
        from,
        opened: false,
        sums: sums::new(0),
    }
}

pub fn in_range(e: Equaliser) -> bool
    ensures { result ≡ eq_in_range e }
{
    let few = e.filled <= 11;
    if e.opened {
        few & eq_train::plain::in_range(e.sums)
    } else {
        few
    }
}

// One more symbol. The fill counts up to 11, which is what a training asks for.
pub fn pushed(e: Equaliser, i: i16, q: i16) -> Equaliser
    ensures { result ≡ pushed_eq e i q }
{
    let mut line = e.line;
    eq_fir::ranged::shift(&mut line, i, q);
    let filled = e.filled;
    Equaliser {
        line,
        filled: if filled < 11 { filled + 1 } else { 11 },
        ..e
    }
}

pub fn output_of(e: Equaliser) -> Option<Symbol>
    ensures { result ≡ output_at e }
{
    if 5 < e.filled {
        Some(eq_fir::ranged::output(&e.taps, &e.line))
    } else {
        None
    }
}

pub fn with_sums(e: Equaliser, opened: bool, sums: Sums) -> Equaliser
    ensures { result ≡ with_sums e opened sums }
{
    Equaliser { opened, sums, ..e }
}

// Without sums, and those that were open.
pub(crate) fn closed(e: Equaliser) -> Closed
    ensures { result ≡ closed_eq e }
{
    if e.opened {
        Closed {
            eq: with_sums(e, false, sums::new(0)),
            sums: Some(e.sums),
        }
    } else {
        Closed { eq: e, sums: None }
    }
}

pub fn loaded(e: Equaliser, taps: [i16; 22], frame: u32) -> Equaliser
    ensures { result ≡ loaded_eq e taps frame }
{
    Equaliser {
        taps,
        from: Some(frame),
        ..e
    }
}

// A number of the state out of range.
pub(crate) fn range_refusal(e: Equaliser) -> Result<(), Refusal>
    ensures { result ≡ range_refusal e }
{
    if in_range(e) {
        Ok(())
    } else {
        Err(Refusal::Arithmetic)
    }
}

// .. or a training that would be counted, with the count full.
pub(crate) fn train_refusal(e: Equaliser) -> Result<(), Refusal>
    ensures { result ≡ train_refusal e }
{
    if !in_range(e) {
        return Err(Refusal::Arithmetic);
    }
    if e.opened & (11 <= e.filled) & (4194304 <= e.sums.count) {
        return Err(Refusal::Counts);
    }
    Ok(())
}
