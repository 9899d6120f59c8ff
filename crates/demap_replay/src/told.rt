// Answers as 24 numbers: the refusal, the answer's numbers, and zeros behind them. A negative number is 2^64 more.
ghost use Rattle.std.specs.Prelude.{◌≡◌, ◌<◌};
ghost use Rattle.wire.specs.Wire.{bits};
ghost use Rattle.demap_replay.specs.Told.{told, single_told, figure_told, known_of, frame_of, force_told, place_told, label_told, soft_told};

use in_force::InForce;
use learn::Learn;
use wire::Field;

// Here and below the refusal is the number of an answer's bytes.
fn told(refusal: u8, v: [u64; 9]) -> [u64; 24]
    ensures { result ≡ told refusal v }
{
    [
        refusal as u64,
        v[0],
        v[1],
        v[2],
        v[3],
        v[4],
        v[5],
        v[6],
        v[7],
        v[8],
        0,
        0,
        0,
        0,
        0,
        0,
        0,
        0,
        0,
        0,
        0,
        0,
        0,
        0,
    ]
}

// A refusal, or 0, and two numbers.
pub(crate) fn single(refusal: u8, v: u64, w: u64) -> [u64; 24]
    ensures { result ≡ single_told refusal v w }
{
    told(refusal, [v, w, 0, 0, 0, 0, 0, 0, 0])
}

fn bits8(v: i8) -> u64
    ensures { result ≡ bits v }
{
    (v as i16).to_bits()
}

// Four soft values from o on, if there are.
pub(crate) fn soft(refusal: u8, o: u64, s: &[i8; 41]) -> [u64; 24]
    ensures { result ≡ soft_told refusal o s.now }
{
    if o < 38 {
        let k = o as usize;
        let a = s[k];
        let b = s[k + 1];
        let c = s[k + 2];
        let d = s[k + 3];
        told(
            refusal,
            [bits8(a), bits8(b), bits8(c), bits8(d), 0, 0, 0, 0, 0],
        )
    } else {
        single(255, 0, 0)
    }
}

// A noise figure: whether there is one, and it.
pub(crate) fn figure(f: Option<i64>) -> [u64; 24]
    ensures { result ≡ figure_told f }
{
    match f {
        Some(v) => single(0, 1, v.to_bits()),
        None => single(0, 0, 0),
    }
}

// A number of an answer's bytes: 1, or 0 where there is none.
fn known(s: Option<u32>) -> u64
    ensures { result ≡ known_of s }
{
    match s {
        None => 0,
        Some(n) => 1,
    }
}

fn frame(s: Option<u32>) -> u64
    ensures { result ≡ frame_of s }
{
    match s {
        None => 0,
        Some(n) => n as u64,
    }
}

// What is in force: flags, noise figure, scale, frame.
pub(crate) fn force(f: InForce) -> [u64; 24]
    ensures { result ≡ force_told f }
{
    let b = f.learned;
    let s = f.from;
    told(
        0,
        [
            fields::flag(b[0]),
            fields::flag(b[1]),
            fields::flag(b[2]),
            fields::flag(b[3]),
            fields::flag(b[4]),
            f.n0.to_bits(),
            f.k.to_bits(),
            known(s),
            frame(s),
        ],
    )
}

// The label at a place: its sums and its count; and the sum and number of the noise samples.
fn place(l: Learn, a: usize) -> [u64; 24]
    requires { a < 62 }
    ensures { result ≡ place_told l a }
{
    let s = l.sum;
    let c = l.count;
    let si = s[2 * a];
    let sq = s[2 * a + 1];
    told(
        0,
        [
            si.to_bits(),
            sq.to_bits(),
            c[a] as u64,
            l.noise.to_bits(),
            l.samples as u64,
            0,
            0,
            0,
            0,
        ],
    )
}

// .. if there is such a place.
pub(crate) fn label(l: Learn, a: u64) -> [u64; 24]
    ensures { result ≡ label_told l a }
{
    if a < 62 {
        place(l, a as usize)
    } else {
        single(255, 0, 0)
    }
}
