// The equaliser, after `Equaliser` of chain/eq.rs. The state goes in by value and comes back.
#![tactic(auto)]

pub mod plain;
pub mod ranged;

ghost use Rattle.std.specs.Prelude.{◌≡◌};
ghost use Rattle.eq.specs.Eq.{new_eq, pushed_eq};
ghost use Rattle.eq.specs.Answers.{restart_answer, push_answer, output_answer, open_answer, train_answer, close_answer, load_answer};

use angles::Symbol;
use refusal::Refused;
use sums::Sums;

// The last 11 symbols, newest first, and how many of them came since the restart; the taps; the open sums. No Option stands for the flag and
// the sums: the replay program gives an equaliser sums that are not open, opens them later and tells both (eq_calls, call 11).
#[derive(Clone, Copy)]
pub struct Equaliser {
    pub line: [i16; 22],
    pub filled: u32,
    pub taps: [i16; 22],
    pub from: Option<u32>,
    pub opened: bool,
    pub sums: Sums,
}

// The equaliser, and the symbol that comes out of it.
#[derive(Clone, Copy)]
pub struct Pushed {
    pub eq: Equaliser,
    pub out: Option<Symbol>,
}

// The equaliser without sums, and those that were open.
#[derive(Clone, Copy)]
pub struct Closed {
    pub eq: Equaliser,
    pub sums: Option<Sums>,
}

// Identity taps, nothing summed.
pub fn new() -> Equaliser
    ensures { result ≡ new_eq }
{
    let mut taps = [0i16; 22];
    taps[10] = 16384;
    plain::started(taps, None)
}

// The line cleared and open sums dropped; the taps stay.
pub fn restart(e: Equaliser) -> Result<Equaliser, Refused<Equaliser>>
    ensures { result ≡ restart_answer e }
{
    match plain::range_refusal(e) {
        Ok(()) => Ok(plain::started(e.taps, e.from)),
        Err(why) => Err(Refused { why, state: e }),
    }
}

// One more symbol. Not inlined, since the compiler would then move each number of the equaliser by itself into what `push` answers.
#[inline(never)]
fn one_more(e: Equaliser, i: i16, q: i16) -> Equaliser
    ensures { result ≡ pushed_eq e i q }
{
    plain::pushed(e, i, q)
}

// One symbol, and the output five before it once six are there.
pub fn push(e: Equaliser, i: i16, q: i16) -> Result<Pushed, Refused<Equaliser>>
    ensures { result ≡ push_answer e i q }
{
    match plain::range_refusal(e) {
        Ok(()) => {
            let eq = one_more(e, i, q);
            Ok(Pushed {
                eq,
                out: plain::output_of(eq),
            })
        }
        Err(why) => Err(Refused { why, state: e }),
    }
}

// The output for the line as it is.
pub fn output(e: Equaliser) -> Result<Pushed, Refused<Equaliser>>
    ensures { result ≡ output_answer e }
{
    match plain::range_refusal(e) {
        Ok(()) => Ok(Pushed {
            eq: e,
            out: Some(eq_fir::ranged::output(&e.taps, &e.line)),
        }),
        Err(why) => Err(Refused { why, state: e }),
    }
}

// Sums of a frame, from nothing; open ones are dropped.
pub fn open(e: Equaliser, frame: u32) -> Result<Equaliser, Refused<Equaliser>>
    ensures { result ≡ open_answer e frame }
{
    match plain::range_refusal(e) {
        Ok(()) => Ok(plain::with_sums(e, true, sums::new(frame))),
        Err(why) => Err(Refused { why, state: e }),
    }
}

// The symbol at the line's centre is a training symbol with this reference.
pub fn train(e: Equaliser, di: i16, dq: i16) -> Result<Equaliser, Refused<Equaliser>>
    ensures { result ≡ train_answer e di dq }
{
    match plain::train_refusal(e) {
        Ok(()) => Ok(ranged::trained(e, di, dq)),
        Err(why) => Err(Refused { why, state: e }),
    }
}

// The open sums, which are then closed.
pub fn close(e: Equaliser) -> Result<Closed, Refused<Equaliser>>
    ensures { result ≡ close_answer e }
{
    match plain::range_refusal(e) {
        Ok(()) => Ok(plain::closed(e)),
        Err(why) => Err(Refused { why, state: e }),
    }
}

// Taps that were solved from a frame's sums.
pub fn load(e: Equaliser, taps: [i16; 22], frame: u32) -> Result<Equaliser, Refused<Equaliser>>
    ensures { result ≡ load_answer e taps frame }
{
    match plain::range_refusal(e) {
        Ok(()) => Ok(plain::loaded(e, taps, frame)),
        Err(why) => Err(Refused { why, state: e }),
    }
}
