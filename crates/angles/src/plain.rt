// What the crates above share and needs nothing of its caller.
ghost use Rattle.std.specs.Prelude.{◌≡◌, ◌^◌, ◌≤◌, unsigned_abs};
ghost use Rattle.angles.specs.Angles.{turn_from};

// The turn from one angle to another.
pub fn turn_from(a: u32, b: u32) -> i64
    ensures { (result ≡ turn_from a b) × (unsigned_abs result ≤ 2 ^ 31) }
{
    let d = std::num::wrapping_sub_u32(b, a);
    fx::signed_angle(d)
}
