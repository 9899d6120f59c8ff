// For programs, which prove that the bytes are there.
ghost use Rattle.std.specs.Prelude.{◌≡◌, ◌+◌, ◌<◌, ◌≤◌};
ghost use Rattle.fields.specs.Fields.{one_at, ones_at, pair_at};

// The word of the 48 bytes from byte `from` on.
pub fn ones_at(bytes: &[u8; 192], from: usize) -> [i8; 48]
    requires { from + 48 ≤ 192 }
    ensures { result ≡ ones_at bytes.now from }
{
    std::array::from_fn(
        |k: usize| -> i8
            requires { (k < 48) × (from + 48 ≤ 192) }
            ensures { result ≡ one_at bytes.entry.now from k }
        { crate::plain::one(bytes[from + k]) },
    )
}

// The i16 of the two bytes from byte k on, the low one first.
pub fn pair_at(bytes: &[u8; 192], k: usize) -> i16
    requires { k + 2 ≤ 192 }
    ensures { result ≡ pair_at bytes.now k }
{
    i16::from_le_bytes([bytes[k], bytes[k + 1]])
}
