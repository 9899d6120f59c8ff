// What the crates above share and needs nothing of its caller.
ghost use Rattle.std.specs.Prelude.{◌≡◌};
ghost use Rattle.fx.specs.Fx.{sat16_of, sat127_of, sat32_of};
ghost use Rattle.fx.specs.Answers.{wide};

use crate::sizes;

// Of size over 2^60: document 01's test of a wide argument.
pub fn wide(v: i64) -> bool
    ensures { result ≡ wide v }
{
    sizes::wide(v)
}

// Three functions and no generic one: it would need a trait for the bounds and the narrowing cast, and each of these is one line.
pub fn sat16(v: i64) -> i16
    ensures { result ≡ sat16_of v }
{
    v.clamp(-32768, 32767) as i16
}

pub fn sat127(v: i64) -> i8
    ensures { result ≡ sat127_of v }
{
    v.clamp(-127, 127) as i8
}

pub fn sat32(v: i64) -> i32
    ensures { result ≡ sat32_of v }
{
    v.clamp(-2147483648, 2147483647) as i32
}
