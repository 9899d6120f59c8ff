// What the bytes of a call hold.
ghost use Rattle.std.specs.Prelude.{◌≡◌, ◌-◌, ◌<◌, length};
ghost use Rattle.wire.specs.Wire.{packed_of};
ghost use Rattle.fields.specs.Fields.{one_at};
ghost use Rattle.receiver_replay.specs.Given.{over_of, symbols_of, put_of};

// The bytes from `from` on, signed, in place of the first entries, as far as there are so many.
fn copy(p: &[u64; 24], from: usize, to: &mut [i8])
    requires { from < 192 }
    ensures { to.new ≡ over_of (one_at (packed_of p.now) from) (192 - from) to.old }
{
    let bytes = wire::packed(p);
    let n = fields::least((192 - from) as u64, to.len());
    for k in 0..n {
        to[k] = fields::plain::one(bytes[from + k]);
    }
}

// Zeros to fill. A function, since a contract gives a proof the length and no more.
fn no_symbols() -> [i8; 144]
    ensures { length result ≡ 144 }
{
    [0; 144]
}

// The symbols of the bytes from 48 on.
pub(crate) fn symbols(p: &[u64; 24]) -> [i8; 144]
    ensures { result ≡ symbols_of p.now }
{
    let mut t = no_symbols();
    copy(p, 48, &mut t);
    t
}

// The bytes from 16 on, put to the places from p[1] on, as far as there are places.
pub(crate) fn put(p: &[u64; 24], input: &mut [i8])
    ensures { input.new ≡ put_of p.now input.old }
{
    let at = fields::least(p[1], input.len());
    copy(p, 16, &mut input[at..]);
}
