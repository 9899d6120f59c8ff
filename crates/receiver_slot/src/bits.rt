// The soft bits of what comes out, each from a place of the buffer on; the place behind them is the answer.
ghost use Rattle.std.specs.Prelude.{◌≡◌, ◌+◌, ◌*◌, ◌/◌, ◌≤◌, ◌<◌, ◌^◌, pos, length};
ghost use Rattle.demap.specs.Demap.{label_metric, soft_bits, block_bits};
ghost use Rattle.frame_map.specs.Map.{part_of};
ghost use Rattle.receiver_slot.specs.Slot.{aligned_by, soft_of, soft_all};
ghost use Rattle.receiver_slot.specs.Ranges.{PointsOk};
ghost use Rattle.receiver_slot.specs.Steps.{put_at};

use crate::Points;
use angles::Symbol;
use frame::AlignedSymbol;
use frame_map::SlotPart;

// Two numbers for each of 2^bits points.
fn numbers(bits: usize) -> usize
    requires { bits ≤ 5 }
    ensures { (result ≡ 2 * 2 ^ bits) × (result ≤ 64) }
{
    2 * (1usize << bits)
}

fn main_symbol(p: Points, z: Symbol, o: usize, soft: &mut [i8]) -> usize
    requires { (PointsOk p) × (o + p.bits ≤ length soft.old) }
    ensures { (result ≡ o + p.bits) × (soft.new ≡ put_at o (soft_bits (label_metric z.i z.q p.points) p.bits (pos p.k)) soft.old) }
{
    let bits = p.bits as usize;
    if bits == 0 {
        o
    } else {
        let points = p.points;
        let n = numbers(bits);
        let e = o + bits;
        demap::ranged::one(z.i, z.q, &points[0..n], bits, p.k as i64, &mut soft[o..e]);
        e
    }
}

fn symbol(p: Points, a: AlignedSymbol, o: usize, soft: &mut [i8]) -> usize
    requires { (PointsOk p) × (o + length (soft_of (part_of a.meta.j) p a.z) ≤ length soft.old) }
    ensures { (result ≡ o + length (soft_of (part_of a.meta.j) p a.z)) × (soft.new ≡ put_at o (soft_of (part_of a.meta.j) p a.z) soft.old) }
{
    let m = a.meta;
    let z = a.z;
    match frame_map::part(m.j as usize) {
        Ok(SlotPart::Sync(_)) => o,
        Ok(SlotPart::Pilot(_)) => o,
        Ok(SlotPart::Main(_)) => main_symbol(p, z, o, soft),
        Ok(SlotPart::Tmcc(_)) => o,
        Err(_) => o,
    }
}

pub(crate) fn told(p: Points, out: Option<AlignedSymbol>, o: usize, soft: &mut [i8]) -> usize
    requires { (PointsOk p) × (o + length (soft_all p (aligned_by out)) ≤ length soft.old) }
    ensures { (result ≡ o + length (soft_all p (aligned_by out))) × (soft.new ≡ put_at o (soft_all p (aligned_by out)) soft.old) }
{
    match out {
        None => o,
        Some(a) => symbol(p, a, o, soft),
    }
}

// The soft bits of equalised main symbols, pairs of I and Q, one behind the other.
pub(crate) fn main_symbols(p: Points, z: &[i16], o: usize, soft: &mut [i8]) -> usize
    requires { (PointsOk p) × (o + length z.now / 2 * p.bits ≤ length soft.old) × (length z.now ≤ 272) }
    ensures { (result ≡ o + length z.now / 2 * p.bits) × (soft.new ≡ put_at o (block_bits z.now p.points p.bits (pos p.k) (length z.now / 2)) soft.old) }
{
    let bits = p.bits as usize;
    if bits == 0 {
        o
    } else {
        let points = p.points;
        let n = numbers(bits);
        let e = o + z.len() / 2 * bits;
        demap::ranged::block(z, &points[0..n], bits, p.k as i64, &mut soft[o..e]);
        e
    }
}
