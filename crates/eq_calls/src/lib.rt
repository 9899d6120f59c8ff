// Calls of equaliser and solver as 24 numbers, and their answers as 24 more, for the replay programs; compare/README.md lists them.
#![tactic(auto)]

mod calls;
mod given;
pub mod kept;
pub mod told;

ghost use Rattle.std.specs.Prelude.{◌≡◌, ◌≤◌};
ghost use Rattle.eq_calls.specs.Turns.{same, turn_of};

use kept::{Kept, Turn};

// All as it is; 255 is no refusal of document 01, so what is told is a number, as in the bytes of an answer.
fn same(k: Kept, refusal: u8) -> Turn
    ensures { result ≡ same k refusal }
{
    Turn {
        kept: k,
        told: told::told(k, refusal, 0, 0, 0),
    }
}

// A call that is not one of the equaliser's entries.
fn other(op: u64, k: Kept, p: &[u64; 24]) -> Turn
    requires { 9 ≤ op }
    ensures { result ≡ turn_of op p.now k }
{
    match op {
        9 => calls::line(k, p),
        10 => calls::taps(k, p),
        11 => calls::numbers(k, p),
        12 => calls::upper(k, p),
        13 => calls::right(k, p),
        14 => calls::keep(k),
        15 => calls::solve(k),
        _ => same(k, 255),
    }
}

// Call `op`, with the numbers of p. Which call it is stands as a number in its bytes: an enum of the calls would be one more list of these numbers.
pub fn turn(op: u64, k: Kept, p: &[u64; 24]) -> Turn
    ensures { result ≡ turn_of op p.now k }
{
    match op {
        0 => same(k, 0),
        1 => calls::new(k),
        2 => calls::restart(k),
        3 => calls::push(k, p),
        4 => calls::output(k),
        5 => calls::open(k, p),
        6 => calls::train(k, p),
        7 => calls::close(k),
        8 => calls::load(k, p),
        _ => other(op, k, p),
    }
}
