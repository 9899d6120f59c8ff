// What the numbers and the bytes of a call hold.
ghost use Rattle.std.specs.Prelude.{◌≡◌, length};
ghost use Rattle.receiver_calls.specs.Given.{points_of};

// Zeros to fill. A function, since a contract gives a proof the length and no more.
fn no_points() -> [i16; 80]
    ensures { length result ≡ 80 }
{
    [0; 80]
}

// The points of the bytes from 32 on.
pub(crate) fn points(bytes: &[u8; 192]) -> [i16; 80]
    ensures { result ≡ points_of bytes.now }
{
    let mut t = no_points();
    for k in 0..80 {
        t[k] = fields::ranged::pair_at(bytes, 32 + 2 * k);
    }
    t
}
