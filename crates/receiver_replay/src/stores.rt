// What each call that takes stores answers and leaves. The contracts of a play and of a feed hold beside any input, since both leave it as it is.
ghost use Rattle.std.specs.Prelude.{◌≡◌, List, ℤ};
ghost use Rattle.receiver_replay.specs.Calls.{new_turn, new_left, restart_turn, restart_left, look_turn, all, moved, play_call, feed_call};

use crate::given;
use receiver_calls::kept;
use receiver_calls::kept::{Kept, Turn};
use wire::Field;

pub(crate) fn new(k: Kept, p: &[u64; 24], acc: &mut [u32]) -> Turn
    ensures { (result ≡ new_turn k p.now acc.old) × (acc.new ≡ new_left p.now acc.old) }
{
    let n = fields::least(p[3], acc.len());
    receiver_calls::answered(k, receiver::new(p[1], i32::of_bits(p[2]), &mut acc[..n]))
}

pub(crate) fn restart(k: Kept, p: &[u64; 24], acc: &mut [u32]) -> Turn
    ensures { (result ≡ restart_turn k p.now acc.old) × (acc.new ≡ restart_left k p.now acc.old) }
{
    let n = fields::least(p[3], acc.len());
    receiver_calls::answered(k, receiver::restart(k.receiver, p[1], &mut acc[..n]))
}

pub(crate) fn look(k: Kept, acc: &[u32], store: &[i16], soft: &[i8]) -> Turn
    ensures { result ≡ look_turn k acc.now store.now soft.now }
{
    kept::turned(
        k,
        fields::four(0, digest::of(acc), digest::of(store), digest::of(soft)),
    )
}

pub(crate) fn play(
    k: Kept,
    p: &[u64; 24],
    table: &[i16],
    acc: &mut [u32],
    store: &mut [i16],
    soft: &mut [i8],
) -> Turn
    ensures { (input : List ℤ) → moved result table.now acc.new store.new soft.new input ≡ play_call p.now (all k table.now acc.old store.old soft.old input) }
{
    let x = given::symbols(p);
    let n = fields::least(p[1], 72);
    let t = fields::least(p[2], table.len());
    let a = fields::least(p[3], acc.len());
    let b = fields::least(p[4], store.len());
    let c = fields::least(p[5], soft.len());
    let d = receiver_play::ranged::play(
        k.receiver,
        n,
        &x,
        k.f,
        k.s,
        &table[..t],
        &mut acc[..a],
        &mut store[..b],
        &mut soft[..c],
    );
    receiver_calls::played(k, d)
}

// So many of the bytes x by one call of `feed`: the call's own, or the input's.
pub(crate) fn feed(
    k: Kept,
    p: &[u64; 24],
    x: &[i8],
    table: &[i16],
    acc: &mut [u32],
    store: &mut [i16],
    soft: &mut [i8],
) -> Turn
    ensures { (input : List ℤ) → moved result table.now acc.new store.new soft.new input ≡ feed_call p.now x.now (all k table.now acc.old store.old soft.old input) }
{
    let m = fields::least(p[1], x.len());
    let t = fields::least(p[2], table.len());
    let a = fields::least(p[3], acc.len());
    let b = fields::least(p[4], store.len());
    let c = fields::least(p[5], soft.len());
    let d = receiver_feed::feed(
        k.receiver,
        &x[..m],
        k.f,
        k.s,
        &table[..t],
        &mut acc[..a],
        &mut store[..b],
        &mut soft[..c],
    );
    receiver_calls::played(k, receiver_play::of_feed(d))
}
