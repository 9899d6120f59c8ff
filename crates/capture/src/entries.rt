// An entry of the contents.
ghost use Rattle.std.specs.Prelude.{◌≡◌, ◌<◌, ◌≤◌, length};
ghost use Rattle.capture.specs.Contents.{place_of, kind_fits, length_fits, entry_of};

use crate::numbers;
use refusal::Refusal;

// What a body holds.
#[derive(Clone, Copy, Debug, PartialEq, Eq)]
pub enum Kind {
    Words,
    Table,
    Points,
    Symbols,
}

impl Kind {
    // Its entry's place among the four. The entry itself has the number after it.
    fn place(self) -> u8
        ensures { (result ≡ place_of self) × (result < 4) }
    {
        match self {
            Kind::Words => 0,
            Kind::Table => 1,
            Kind::Points => 2,
            Kind::Symbols => 3,
        }
    }

    // The body length is one that its entry may declare.
    fn length_fits(self, l: u32) -> bool
        ensures { result ≡ length_fits self l }
    {
        match self {
            Kind::Words => l == 96,
            Kind::Table => l == 2048,
            Kind::Points => matches!(l, 13 | 21 | 37 | 69 | 133),
            Kind::Symbols => l % 2 == 0,
        }
    }
}

// The first four bytes of the entry at place n: its kind's number and three zeros.
fn kind_fits(n: u8, a: u8, b: u8, c: u8, d: u8) -> bool
    requires { n < 4 }
    ensures { result ≡ kind_fits n a b c d }
{
    [a, b, c, d] == [n + 1, 0, 0, 0]
}

// The body length that the kind's entry declares.
pub(crate) fn entry(bytes: &[u8], kind: Kind) -> Result<u32, Refusal>
    requires { 33 ≤ length bytes.now }
    ensures { result ≡ entry_of bytes.now kind }
{
    let n = kind.place();
    let k = 1 + 8 * (n as usize);
    let length = numbers::number(bytes, k + 4);
    if kind_fits(n, bytes[k], bytes[k + 1], bytes[k + 2], bytes[k + 3]) & kind.length_fits(length) {
        Ok(length)
    } else {
        Err(Refusal::Contents)
    }
}
