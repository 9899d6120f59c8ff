// Sizes of numbers, and the tests that refuse with 6.
ghost use Rattle.std.specs.Prelude.{◌≡◌, ◌||◌};
ghost use Rattle.fx.specs.Answers.{wide, outside};

// 2^60: the largest size that is taken.
const LIMIT: u64 = 0x1000_0000_0000_0000;

// 2^22: the least size that the CORDIC does not take.
pub(crate) const CORDIC_MAX_IN: u64 = 0x40_0000;

pub(crate) fn wide(v: i64) -> bool
    ensures { result ≡ wide v }
{
    LIMIT < v.unsigned_abs()
}

// Not one function with the next: the one bound is the largest taken and the other the least that is not, as in `wide` and `outside`.
pub(crate) fn wide2(a: i64, b: i64) -> bool
    ensures { result ≡ (wide a || wide b) }
{
    wide(a) | wide(b)
}

pub(crate) fn outside2(a: i64, b: i64) -> bool
    ensures { result ≡ (outside a || outside b) }
{
    (CORDIC_MAX_IN <= a.unsigned_abs()) | (CORDIC_MAX_IN <= b.unsigned_abs())
}
