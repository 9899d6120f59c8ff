// The taps, rounded to whole numbers with halves away from zero.
ghost use Rattle.std.specs.Prelude.{◌≡◌, ◌≤◌, ◌<◌, true, from_bits, slice_index_or};
ghost use Rattle.std.specs.Float.{binary64, nan};
ghost use Rattle.std.specs.Float.Ieee.{lt};
ghost use Rattle.solve.specs.Taps.{size_of, rounded_of, tap_of, taps_of};

// A number above 0, rounded, and not past 32,768. Twice a double is exact, and so is its whole part n: the rounded number is the half of
// n + 1. (y + 0.5 is not exact: just under a half it would round to 1.)
fn size(y: f64) -> u64
    requires { lt (from_bits binary64 0) y ≡ true }
    ensures { (result ≡ size_of y) × (result ≤ 32768) }
{
    if y < 32768.0 {
        (std::num::truncating_f64_to_u64(y * 2.0) + 1) / 2
    } else {
        32768
    }
}

// Both tests are false of a NaN, which gives 0.
fn round(y: f64) -> i16
    ensures { result ≡ rounded_of y }
{
    if y > 0.0 {
        let n = size(y);
        if n < 32768 { n as i16 } else { 32767 }
    } else if y < 0.0 {
        let n = size(-y);
        if n < 32768 { -(n as i16) } else { -32768 }
    } else {
        0
    }
}

fn tap(v: f64) -> i16
    ensures { result ≡ tap_of v }
{
    round(v * 16384.0)
}

pub(crate) fn taps(x: [f64; 22]) -> [i16; 22]
    ensures { result ≡ taps_of x }
{
    std::array::from_fn(
        |k: usize| -> i16
            requires { k < 22 }
            ensures { result ≡ tap_of (slice_index_or x k nan) }
        { tap(x[k]) },
    )
}
