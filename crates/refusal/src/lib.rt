// Why a call is refused, after document 01's table, and what a refused call hands back.
#![tactic(auto)]

ghost use Rattle.std.specs.Prelude.{◌≡◌};
ghost use Rattle.refusal.specs.Refusals.{number_of, code_of};

use std::error::Error;
use std::fmt;

// The places of the table, from top to bottom.
#[derive(Clone, Copy, Debug, PartialEq, Eq)]
pub enum Refusal {
    Stores,
    Words,
    Table,
    Points,
    Scale,
    Arithmetic,
    Position,
    Counts,
    Sums,
    Pivot,
    Contents,
    Bodies,
}

impl Refusal {
    // The number by which the table, the printed lines and C know it.
    pub fn number(self) -> u8
        ensures { result ≡ number_of self }
    {
        match self {
            Refusal::Stores => 1,
            Refusal::Words => 2,
            Refusal::Table => 3,
            Refusal::Points => 4,
            Refusal::Scale => 5,
            Refusal::Arithmetic => 6,
            Refusal::Position => 7,
            Refusal::Counts => 8,
            Refusal::Sums => 9,
            Refusal::Pivot => 10,
            Refusal::Contents => 11,
            Refusal::Bodies => 12,
        }
    }
}

impl fmt::Display for Refusal {
    fn fmt<W: fmt::Write>(&self, f: &mut fmt::Formatter<W>) -> fmt::Result {
        write!(f, "refused {}", self.number())
    }
}

impl Error for Refusal {}

// A refused call's answer: why, and the state as it was handed in.
#[derive(Clone, Copy, Debug, PartialEq, Eq)]
pub struct Refused<S> {
    pub why: Refusal,
    pub state: S,
}

// 0 for an accepted call, and else the refusal's number: what C and the replay programs are told.
pub fn code<T>(answer: &Result<T, Refusal>) -> u8
    ensures { result ≡ code_of answer.now }
{
    match answer {
        Ok(_) => 0,
        Err(why) => why.number(),
    }
}
