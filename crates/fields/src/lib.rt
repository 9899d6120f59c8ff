// What the replay programs of calls of 24 numbers share: numbers as fields, flags, lent parts.
#![tactic(auto)]

pub mod plain;
pub mod ranged;

ghost use Rattle.std.specs.Prelude.{◌≡◌, ◌+◌, ◌<◌, ◌≤◌, length, slice_index};
ghost use Rattle.fields.specs.Fields.{flag_of, parts_of, least_of, set_by, four_told};

use wire::Field;

pub fn flag(b: bool) -> u64
    ensures { result ≡ flag_of b }
{
    u64::from(b)
}

// The 22 numbers from 2 on.
pub fn parts<T: Field>(p: &[u64; 24]) -> [T; 22]
    ensures { result ≡ parts_of T.low p.now }
{
    std::array::from_fn(
        |k: usize| -> T
            requires { k < 22 }
            ensures { result ≡ T.low (slice_index p.entry.now (k + 2)) }
        { T::of_bits(p[k + 2]) },
    )
}

// How many entries are lent, of those that there are.
pub fn least(n: u64, all: usize) -> usize
    ensures { (result ≡ least_of n all) × (result ≤ all) }
{
    n.min(all as u64) as usize
}

// Entry p[1] set to p[2], if there is one.
pub fn set<T: Field + Copy>(p: &[u64; 24], l: &mut [T])
    ensures { l.new ≡ set_by T.low p.now l.old }
{
    let k = p[1];
    if k < (l.len() as u64) {
        l[k as usize] = T::of_bits(p[2]);
    }
}

// A refusal's number, or 0, and three numbers. It is a number, since it stands so in the bytes of an answer, where 255 is no refusal of document 01.
pub fn four(refusal: u8, x: u64, y: u64, z: u64) -> [u64; 24]
    ensures { result ≡ four_told refusal x y z }
{
    let mut told = [0; 24];
    told[..4].copy_from_slice(&[u64::from(refusal), x, y, z]);
    told
}
