// Digests of lists, for the replay programs: what many numbers are is told by one.
#![tactic(auto)]

ghost use Rattle.std.specs.Prelude.{◌≡◌};
ghost use Rattle.digest.specs.Digest.{mixed_of, digest_by};

use wire::Field;

// One more number. The product is made of two halves, since a product may not pass 64 bits.
pub fn mixed(d: u64, n: u64) -> u64
    ensures { result ≡ mixed_of d n }
{
    let low = (d % 0x1_0000_0000) * 2654435761;
    let high = ((d / 0x1_0000_0000) * 2654435761 % 0x1_0000_0000) * 0x1_0000_0000;
    std::num::wrapping_add_u64(std::num::wrapping_add_u64(low, high), n)
}

// From 0 on, each number is mixed in by its 64 bits.
pub fn of<T: Field + Copy>(l: &[T]) -> u64
    ensures { result ≡ digest_by T.bits l.now }
{
    let mut d: u64 = 0;
    for v in l {
        d = mixed(d, v.to_bits());
    }
    d
}
