// The container of a capture, document 01, "Capture": contents, the bodies before the symbols, and the symbols block by block.
#![tactic(auto)]

mod bodies;
mod entries;
mod numbers;

ghost use Rattle.std.specs.Prelude.{◌≡◌, ◌*◌, ◌≤◌, ◌^◌, min, length, take};
ghost use Rattle.capture.specs.Bytes.{signed_into};
ghost use Rattle.capture.specs.Contents.{contents_of};
ghost use Rattle.capture.specs.Bodies.{header_answer, header_table};
ghost use Rattle.capture.specs.Blocks.{shared_of};

use entries::Kind;
use refusal::Refusal;

// The declared lengths of points and symbols.
#[derive(Clone, Copy, Debug, PartialEq, Eq)]
pub struct Lengths {
    pub points: u32,
    pub symbols: u32,
}

// The words of the sync symbols.
#[derive(Clone, Copy, Debug, PartialEq, Eq)]
pub struct Words {
    pub f: [i8; 48],
    pub s: [i8; 48],
}

// The constellation. Its numbers fill the first 2 × 2^bits places: the memory is fixed, and so long for any bits.
#[derive(Clone, Copy, Debug, PartialEq, Eq)]
pub struct Points {
    pub bits: u8,
    pub numbers: [i16; 64],
    pub k: u32,
}

impl Points {
    // The numbers of the points, without the zeros behind. Bits of more than 5, which no header has, are taken for 5.
    pub fn loaded(&self) -> &[i16]
        ensures { result.now ≡ take (2 * 2 ^ min self.now.bits 5) self.now.numbers }
    {
        &self.numbers[..2 << self.bits.min(5)]
    }
}

// All that stands before the symbols but the table. `from` is the first symbol's byte, `declared` the length of the symbols.
#[derive(Clone, Copy, Debug, PartialEq, Eq)]
pub struct Heading {
    pub words: Words,
    pub points: Points,
    pub from: usize,
    pub declared: u32,
}

// Of a block: the bytes that act, what is declared after it, and if bytes are over, which ends the capture with 12. Count and what is left hold whether bytes are
// over or not, so that `over` is no Option's or Result's case.
#[derive(Clone, Copy, Debug, PartialEq, Eq)]
pub struct Shared {
    pub count: usize,
    pub left: u32,
    pub over: bool,
}

// The contents: 33 bytes.
pub fn contents(bytes: &[u8]) -> Result<Lengths, Refusal>
    ensures { result ≡ contents_of bytes.now }
{
    if bytes.len() < 33 || bytes[0] != 4 {
        return Err(Refusal::Contents);
    }
    entries::entry(bytes, Kind::Words)?;
    entries::entry(bytes, Kind::Table)?;
    let points = entries::entry(bytes, Kind::Points)?;
    let symbols = entries::entry(bytes, Kind::Symbols)?;
    Ok(Lengths { points, symbols })
}

// Contents, words, table and points. A refusal leaves the lent table as it is.
pub fn header(bytes: &[u8], table: &mut [i16]) -> Result<Heading, Refusal>
    ensures { (result ≡ header_answer (length table.old) bytes.now) × (table.new ≡ header_table table.old bytes.now) }
{
    if table.len() != 1024 {
        return Err(Refusal::Table);
    }
    let lengths = contents(bytes)?;
    let words = bodies::words(bytes)?;
    let points = bodies::points(bytes, lengths.points)?;
    bodies::table(bytes, table);
    Ok(Heading {
        words,
        points,
        from: 2177 + (lengths.points as usize),
        declared: lengths.symbols,
    })
}

// A block of `have` bytes where `left` bytes of symbols are still declared. At the input's end the capture ends with 12 if any are left.
pub fn share(left: u32, have: usize) -> Shared
    ensures { result ≡ shared_of left have }
{
    let n = 2 * ((left as usize).min(have) / 2);
    Shared {
        count: n,
        left: left - (n as u32),
        over: n < have,
    }
}

// Bytes as signed bytes, as many as both slices hold; their number.
pub fn symbols(bytes: &[u8], out: &mut [i8]) -> usize
    ensures { (result ≡ min (length bytes.now) (length out.old)) × (out.new ≡ signed_into bytes.now out.old) }
{
    let n = bytes.len().min(out.len());
    for i in 0..n {
        out[i] = numbers::signed_byte(bytes[i]);
    }
    n
}
