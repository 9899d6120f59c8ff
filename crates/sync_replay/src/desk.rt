// What the calls act on, and what each does to it. Places and accumulators are lent.
#![tactic(auto, unfolding(crate::specs::Desk::words_of, crate::specs::Desk::after_of, crate::specs::Desk::started_of, crate::specs::Desk::restarted_of, crate::specs::Desk::handed_of, crate::specs::Desk::folded_of, crate::specs::Desk::unknown_of))]

ghost use Rattle.std.specs.Prelude.{◌≡◌};
ghost use Rattle.sync.specs.Answers.{new_acc, restart_acc, push_acc};
ghost use Rattle.sync_replay.specs.Desk.{put_of, set_of, words_of, after_of, begun_by, started_of, restarted_of, handed_of, folded_of, unknown_of, pushed_of, st, pushes_of};

use crate::{given, mixing, told};
use refusal::Refused;
use sync::SlotSync;

// The sync, the words in force, and the last answer with the digest before it.
#[derive(Clone, Copy)]
pub struct Desk {
    pub sync: SlotSync,
    pub f: [i8; 48],
    pub s: [i8; 48],
    pub told: [u64; 40],
}

// A number put to a place; there are 192.
pub(crate) fn put(p: &mut [u64; 192], n: u64, v: u64)
    ensures { p.new ≡ put_of p.old n v }
{
    if n < 192 {
        p[n as usize] = v;
    }
}

// An accumulator set.
pub(crate) fn set(acc: &mut [u32], n: u64, v: u32)
    ensures { acc.new ≡ set_of acc.old n v }
{
    if n < (acc.len() as u64) {
        acc[n as usize] = v;
    }
}

// The words of the places.
pub(crate) fn words(d: Desk, p: &[u64; 192]) -> Desk
    ensures { result ≡ words_of d p.now }
{
    Desk {
        f: given::word(p, 0),
        s: given::word(p, 48),
        ..d
    }
}

// The same words, a sync and an answer.
fn after(d: Desk, sync: SlotSync, answer: [u64; 40]) -> Desk
    ensures { result ≡ after_of d sync answer }
{
    Desk {
        sync,
        told: told::noted(d.told[0], answer),
        ..d
    }
}

// What starts a sync anew, taken or refused.
fn begun(d: Desk, answer: Result<SlotSync, Refused<SlotSync>>) -> Desk
    ensures { result ≡ begun_by d answer }
{
    match answer {
        Ok(s) => after(d, s, told::refused(0)),
        Err(r) => after(d, r.state, told::refused(r.why.number())),
    }
}

// A new sync, on accumulators that are refused too.
pub(crate) fn started(d: Desk, at: u64, acc: &mut [u32]) -> Desk
    ensures { (result ≡ started_of d at acc.old) × (acc.new ≡ new_acc acc.old) }
{
    begun(d, sync::new(at, acc))
}

pub(crate) fn restarted(d: Desk, at: u64, acc: &mut [u32]) -> Desk
    ensures { (result ≡ restarted_of d at acc.old) × (acc.new ≡ restart_acc d.sync at acc.old) }
{
    begun(d, sync::restart(d.sync, at, acc))
}

// The state of the places.
pub(crate) fn handed(d: Desk, p: &[u64; 192]) -> Desk
    ensures { result ≡ handed_of d p.now }
{
    Desk {
        sync: given::state_at(p),
        ..d
    }
}

// All accumulators in the digest.
pub(crate) fn folded(d: Desk, acc: &[u32]) -> Desk
    ensures { result ≡ folded_of d acc.now }
{
    let mut t = d.told;
    t[0] = mixing::mixed_store(t[0], acc);
    Desk { told: t, ..d }
}

// A call that there is not: 255 is no refusal of document 01.
pub(crate) fn unknown(d: Desk) -> Desk
    ensures { result ≡ unknown_of d }
{
    after(d, d.sync, told::refused(255))
}

// One symbol.
fn pushed(d: Desk, i: i16, q: i16, acc: &mut [u32]) -> Desk
    ensures { (result ≡ pushed_of d i q acc.old) × (acc.new ≡ push_acc d.sync i q d.f d.s acc.old) }
{
    match sync::push(d.sync, i, q, d.f, d.s, acc) {
        Ok(p) => after(d, p.sync, told::answer(p.last, p.events)),
        Err(r) => after(d, r.state, told::refused(r.why.number())),
    }
}

// One symbol, n times.
pub(crate) fn pushes(d: Desk, n: u64, i: i16, q: i16, acc: &mut [u32]) -> Desk
    ensures { st result acc.new ≡ pushes_of n i q (st d acc.old) }
{
    let mut r = d;
    for k in 0u64..n {
        r = pushed(r, i, q, acc);
    }
    r
}
