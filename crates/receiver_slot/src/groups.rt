// Symbols of a slot in groups, once nothing trains: the corrected symbols stand in a buffer, the newest first, in front of the line, so that
// each symbol's line is a part of it.
ghost use Rattle.std.specs.Prelude.{◌≡◌, ◌++◌, ◌+◌, ◌-◌, ◌*◌, ◌≤◌, ◌<◌, ◌^◌, pos, length, take, drop, replicate};
ghost use Rattle.demap.specs.Demap.{block_bits};
ghost use Rattle.phase.specs.Ranges.{WholeOk};
ghost use Rattle.receiver_slot.specs.Steps.{put_at, behind_of, ahead_on, outs_on, GroupOk, stretch_of};

use crate::{Points, Stretch, bits};
use phase::WholeSlot;

// The line behind room for 140 symbols.
fn opened(line: &[i16; 22]) -> [i16; 304]
    requires { length line.now ≡ 22 }
    ensures { (result ≡ put_at 280 line.now (replicate 304 (pos 0))) × (length result ≡ 304) }
{
    let mut l = [0i16; 304];
    for k in 0..22 {
        l[280 + k] = line[k];
    }
    l
}

// The symbols 29 + k to 28 + k + n into that room.
fn ahead(l: &mut [i16; 304], w: WholeSlot, k: usize, n: usize, table: &[i16], store: &[i16])
    requires { (length l.old ≡ 304) × (WholeOk w) × (w.head.at + 9296 ≤ 2 ^ 62) × (29 + (k + n) ≤ 9296) × (n ≤ 140) × (length table.now ≡ 1024) × (length store.now ≡ 18592) }
    ensures { l.new ≡ take (280 - 2 * n) l.old ++ ahead_on k n (drop 280 l.old) w table.now store.now }
{
    for t in 0..n {
        let c = phase::ranged::corrected(w, 29 + (k + t), table, store);
        let y = c.y;
        let i = y.i;
        let q = y.q;
        l[278 - 2 * t] = i;
        l[279 - 2 * t] = q;
    }
}

// The line that begins at a place of the buffer.
fn closed(line: &mut [i16; 22], l: &[i16; 304], e: usize)
    requires { (length line.old ≡ 22) × (length l.now ≡ 304) × (e ≤ 280) }
    ensures { line.new ≡ take 22 (drop e l.now) }
{
    for k in 0..22 {
        line[k] = l[e + k];
    }
}

// A group of n symbols, 29 + k first: they shift the line, and the first m of them let out main symbols, whose soft bits stand from place o on;
// the place behind them is the answer. z is lent, not made here: the compiler keeps the rows as they are only where a store might meet them
// (docs/BENCHMARKS.md).
pub(crate) fn group(
    line: &mut [i16; 22],
    z: &mut [i16],
    rows: &[i16; 96],
    w: WholeSlot,
    p: Points,
    k: usize,
    n: usize,
    m: usize,
    o: usize,
    table: &[i16],
    store: &[i16],
    soft: &mut [i8],
) -> usize
    requires { GroupOk line.old z.old rows.now w p k n m o table.now store.now soft.old }
    ensures { (result ≡ o + m * p.bits) × (line.new ≡ take 22 (ahead_on k n (behind_of line.old) w table.now store.now)) × (z.new ≡ outs_on k m rows.now line.old w table.now store.now ++ drop (2 * m) z.old) × (soft.new ≡ put_at o (block_bits (outs_on k m rows.now line.old w table.now store.now) p.points p.bits (pos p.k) m) soft.old) }
{
    let mut l = opened(line);
    ahead(&mut l, w, k, n, table, store);
    closed(line, &l, 280 - 2 * n);
    eq_fir::ranged_rows::outputs(rows, &l[0..304], 278, m, z);
    let e = 2 * m;
    bits::main_symbols(p, &z[0..e], o, soft)
}

// The stretches behind the first 29 symbols, but for the last: those that let out pilots, then 136 main symbols and 4 of TMCC at a time.
pub(crate) fn stretch(g: usize) -> Stretch
    requires { g < 66 }
    ensures { result ≡ stretch_of g }
{
    if g == 0 {
        Stretch {
            from: 0,
            symbols: 32,
            mains: 0,
        }
    } else {
        Stretch {
            from: 140 * g - 108,
            symbols: 140,
            mains: 136,
        }
    }
}
