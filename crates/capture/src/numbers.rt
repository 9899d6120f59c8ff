// Numbers from bytes, least byte first.
ghost use Rattle.std.specs.Prelude.{◌≡◌, ◌+◌, ◌≤◌, length};
ghost use Rattle.capture.specs.Bytes.{number_at, short_at, signed_byte};

// The number of the four bytes from k on.
pub(crate) fn number(bytes: &[u8], k: usize) -> u32
    requires { k + 4 ≤ length bytes.now }
    ensures { result ≡ number_at bytes.now k }
{
    u32::from_le_bytes([bytes[k], bytes[k + 1], bytes[k + 2], bytes[k + 3]])
}

// The signed number of the two bytes from k on.
pub(crate) fn short(bytes: &[u8], k: usize) -> i16
    requires { k + 2 ≤ length bytes.now }
    ensures { result ≡ short_at bytes.now k }
{
    i16::from_le_bytes([bytes[k], bytes[k + 1]])
}

// A function, since a parameter has a range, which a lent byte has not.
pub(crate) fn signed_byte(b: u8) -> i8
    ensures { result ≡ signed_byte b }
{
    b.cast_signed()
}
