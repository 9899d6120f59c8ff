// What the numbers of a call hold, each taken to the width of its field by its low bits; and states with parts replaced.
ghost use Rattle.std.specs.Prelude.{◌≡◌, ◌<◌};
ghost use Rattle.eq_calls.specs.Given.{from_of, numbers_put, upper_entry, upper_of};

use eq::Equaliser;
use sums::Sums;
use wire::Field;

fn from_at(p: &[u64; 24]) -> Option<u32>
    ensures { result ≡ from_of p.now }
{
    if p[2] == 0 {
        None
    } else {
        Some(u32::of_bits(p[3]))
    }
}

// Fill, the taps' frame, whether sums are open, their frame and count.
pub(crate) fn numbers_put(e: Equaliser, p: &[u64; 24]) -> Equaliser
    ensures { result ≡ numbers_put e p.now }
{
    Equaliser {
        filled: u32::of_bits(p[1]),
        from: from_at(p),
        opened: p[4] != 0,
        sums: Sums {
            frame: u32::of_bits(p[5]),
            count: u32::of_bits(p[6]),
            ..e.sums
        },
        ..e
    }
}

// Number j of the upper entries, where v stands for those of a group of 22.
fn upper_entry(r: &[i64; 132], group: u64, v: &[i64; 22], j: usize) -> i64
    requires { j < 132 }
    ensures { result ≡ upper_entry r.now group v.now j }
{
    if ((j / 22) as u64) == group {
        v[j % 22]
    } else {
        r[j]
    }
}

pub(crate) fn upper_of(r: &[i64; 132], group: u64, v: &[i64; 22]) -> [i64; 132]
    ensures { result ≡ upper_of r.now group v.now }
{
    std::array::from_fn(
        |j: usize| -> i64
            requires { j < 132 }
            ensures { result ≡ upper_entry r.entry.now group v.entry.now j }
        { upper_entry(r, group, v, j) },
    )
}
