// What the crates above share and needs nothing of its caller.
ghost use Rattle.std.specs.Prelude.{◌≡◌, ◌%◌, ◌^◌};
ghost use Rattle.wire.specs.Wire.{signed};

// A function, since a parameter has a range, which an element of a lent array has not.
pub fn one(b: u8) -> i8
    ensures { result ≡ signed (2 ^ 7) (b % 2 ^ 8) }
{
    b.cast_signed()
}
