// Numbers as bytes, for the replay programs: least byte first, a negative number as 2^64 (2^32, 2^16, 2^8) more.
#![tactic(auto)]

pub mod ranged;
pub mod streams;

ghost use Rattle.std.specs.Prelude.{◌≡◌, ℕ, ◌++◌, ◌+◌, ◌*◌, ◌<◌, ◌%◌, ◌^◌, length};
ghost use Rattle.wire.specs.Wire.{signed, bits, byte_of, bytes_of, byte_at, packed_of, entry_at, entries_of};

// ---- numbers of 64 bits, and fields of fewer
// A number of a field: as 64 bits, and as the low bits that a field of its width has of 64.
pub trait Field: Sized {
    ghost bits: { Self → ℕ };

    ghost low: { ℕ → Self };

    fn to_bits(self) -> u64
        ensures { result ≡ bits self };

    fn of_bits(u: u64) -> Self
        ensures { result ≡ low u };
}

impl Field for u32 {
    ghost bits = { λ n. n };

    ghost low = { λ u. u % 2 ^ 32 };

    fn to_bits(self) -> u64 {
        u64::from(self)
    }

    fn of_bits(u: u64) -> u32 {
        (u % 0x1_0000_0000) as u32
    }
}

impl Field for u16 {
    ghost bits = { λ n. n };

    ghost low = { λ u. u % 2 ^ 16 };

    fn to_bits(self) -> u64 {
        u64::from(self)
    }

    fn of_bits(u: u64) -> u16 {
        (u % 0x1_0000) as u16
    }
}

impl Field for u8 {
    ghost bits = { λ n. n };

    ghost low = { λ u. u % 2 ^ 8 };

    fn to_bits(self) -> u64 {
        u64::from(self)
    }

    fn of_bits(u: u64) -> u8 {
        (u % 0x100) as u8
    }
}

impl Field for i64 {
    ghost bits = { λ z. bits z };

    ghost low = { λ u. signed (2 ^ 63) u };

    fn to_bits(self) -> u64 {
        self.cast_unsigned()
    }

    fn of_bits(u: u64) -> i64 {
        u.cast_signed()
    }
}

impl Field for i32 {
    ghost bits = { λ z. bits z };

    ghost low = { λ u. signed (2 ^ 31) (u % 2 ^ 32) };

    fn to_bits(self) -> u64 {
        i64::from(self).to_bits()
    }

    fn of_bits(u: u64) -> i32 {
        u32::of_bits(u).cast_signed()
    }
}

impl Field for i16 {
    ghost bits = { λ z. bits z };

    ghost low = { λ u. signed (2 ^ 15) (u % 2 ^ 16) };

    fn to_bits(self) -> u64 {
        i64::from(self).to_bits()
    }

    fn of_bits(u: u64) -> i16 {
        u16::of_bits(u).cast_signed()
    }
}

impl Field for i8 {
    ghost bits = { λ z. bits z };

    ghost low = { λ u. signed (2 ^ 7) (u % 2 ^ 8) };

    fn to_bits(self) -> u64 {
        i64::from(self).to_bits()
    }

    fn of_bits(u: u64) -> i8 {
        u8::of_bits(u).cast_signed()
    }
}

// ---- bytes of numbers
pub fn bytes(u: u64) -> [u8; 8]
    ensures { result ≡ bytes_of u }
{
    u.to_le_bytes()
}

// The bytes of three numbers, joined.
pub fn three(x: u64, y: u64, z: u64) -> [u8; 24]
    ensures { result ≡ bytes_of x ++ bytes_of y ++ bytes_of z }
{
    let a = bytes(x);
    let b = bytes(y);
    let c = bytes(z);
    [
        a[0], a[1], a[2], a[3], a[4], a[5], a[6], a[7], b[0], b[1], b[2], b[3], b[4], b[5], b[6],
        b[7], c[0], c[1], c[2], c[3], c[4], c[5], c[6], c[7],
    ]
}

// Byte j of a number.
fn byte(u: u64, j: usize) -> u8
    requires { j < 8 }
    ensures { result ≡ byte_of u j }
{
    bytes(u)[j]
}

// The bytes of 24 numbers.
pub fn packed(n: &[u64; 24]) -> [u8; 192]
    ensures { result ≡ packed_of n.now }
{
    std::array::from_fn(
        |i: usize| -> u8
            requires { i < 192 }
            ensures { result ≡ byte_at n.entry.now i }
        { byte(n[i / 8], i % 8) },
    )
}

// ---- a table of i16
// The i16 of two bytes.
fn entry(low: u8, high: u8) -> i16
    ensures { result ≡ signed (2 ^ 15) (low + 256 * high) }
{
    i16::from_le_bytes([low, high])
}

// The carrier table.
pub fn table(s: &[u8; 2048]) -> [i16; 1024]
    ensures { result ≡ entries_of s.now }
{
    std::array::from_fn(
        |i: usize| -> i16
            requires { i < 1024 }
            ensures { result ≡ entry_at s.entry.now i }
        { entry(s[2 * i], s[2 * i + 1]) },
    )
}
