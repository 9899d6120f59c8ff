// Answers as 24 numbers: the refusal, the answer's numbers, and zeros behind them. A negative number is 2^64 more. Refusals are numbers here, since
// the programs write them so; no `From` says which numbers these are, since several answers hold one type.
ghost use Rattle.std.specs.Prelude.{◌≡◌};
ghost use Rattle.phase_wire.specs.Told.{trail_shown, nco_told, head_told, phase_told};

use carrier::{Nco, Steps};
use phase::Held;
use sync_heads::Head;
use wire::Field;

// What may be absent: whether it is there, and its numbers, as the programs write them.
#[derive(Clone, Copy)]
pub struct Shown {
    pub known: u64,
    pub first: u64,
    pub second: u64,
    pub third: u64,
}

fn trail_shown(t: Option<Steps>) -> Shown
    ensures { result ≡ trail_shown t }
{
    match t {
        None => Shown {
            known: 0,
            first: 0,
            second: 0,
            third: 0,
        },
        Some(s) => Shown {
            known: 1,
            first: s.last_ss as u64,
            second: s.sum.to_bits(),
            third: s.steps as u64,
        },
    }
}

// A carrier, and two more numbers.
pub fn nco(refusal: u8, n: Nco, x: u64, y: u64) -> [u64; 24]
    ensures { result ≡ nco_told refusal n x y }
{
    let s = trail_shown(n.trail);
    [
        refusal as u64,
        n.phase as u64,
        n.freq.to_bits(),
        s.known,
        s.first,
        s.second,
        s.third,
        x,
        y,
        0,
        0,
        0,
        0,
        0,
        0,
        0,
        0,
        0,
        0,
        0,
        0,
        0,
        0,
        0,
    ]
}

// A head that there is, and three more numbers.
pub fn head(refusal: u8, h: Head, x: u64, y: u64, z: u64) -> [u64; 24]
    ensures { result ≡ head_told refusal h x y z }
{
    let s = slot_wire::slot_shown(h.slot);
    [
        refusal as u64,
        1,
        h.at,
        slot_wire::word_number(h.word),
        h.theta as u64,
        h.amp.to_bits(),
        s.known,
        s.number,
        s.frame,
        h.corr.re.to_bits(),
        h.corr.im.to_bits(),
        h.nco_phase as u64,
        x,
        y,
        z,
        0,
        0,
        0,
        0,
        0,
        0,
        0,
        0,
        0,
    ]
}

// A slot's state: nothing, or its head and its count.
pub fn phase(refusal: u8, s: Option<Held>) -> [u64; 24]
    ensures { result ≡ phase_told refusal s }
{
    match s {
        None => fields::four(refusal, 0, 0, 0),
        Some(x) => head(refusal, x.head, x.count as u64, 0, 0),
    }
}
