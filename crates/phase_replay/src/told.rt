// Answers as 24 numbers: the refusal, the answer's numbers, and zeros behind them. A negative number is 2^64 more. A refused call tells the
// refusal's number, and the state as it was handed in where the state is told.
ghost use Rattle.std.specs.Prelude.{◌≡◌};
ghost use Rattle.phase_replay.specs.Told.{rotated_told, heard_told, restarted_told, held_told, headed_told, due_told, next_told, whole_told, corrected_told, answered_told};

use carrier::{Heard, Nco, Rotated};
use phase::{Answered, Corrected, Headed, Held, WholeSlot};
use refusal::{Refusal, Refused};
use wire::Field;

pub(crate) fn rotated(r: Result<Rotated, Refused<Nco>>) -> [u64; 24]
    ensures { result ≡ rotated_told r }
{
    match r {
        Ok(x) => phase_wire::told::nco(0, x.nco, x.symbol.i.to_bits(), x.symbol.q.to_bits()),
        Err(x) => phase_wire::told::nco(x.why.number(), x.state, 0, 0),
    }
}

pub(crate) fn heard(r: Result<Heard, Refused<Nco>>) -> [u64; 24]
    ensures { result ≡ heard_told r }
{
    match r {
        Ok(x) => phase_wire::told::nco(0, x.nco, fields::flag(x.set), 0),
        Err(x) => phase_wire::told::nco(x.why.number(), x.state, 0, 0),
    }
}

pub(crate) fn restarted(r: Result<Nco, Refused<Nco>>) -> [u64; 24]
    ensures { result ≡ restarted_told r }
{
    match r {
        Ok(n) => phase_wire::told::nco(0, n, 0, 0),
        Err(x) => phase_wire::told::nco(x.why.number(), x.state, 0, 0),
    }
}

// The slot's state after a restart or a symbol ..
pub(crate) fn held(r: Result<Option<Held>, Refused<Option<Held>>>) -> [u64; 24]
    ensures { result ≡ held_told r }
{
    match r {
        Ok(s) => phase_wire::told::phase(0, s),
        Err(x) => phase_wire::told::phase(x.why.number(), x.state),
    }
}

// .. and after a head.
pub(crate) fn headed(r: Result<Headed, Refused<Option<Held>>>) -> [u64; 24]
    ensures { result ≡ headed_told r }
{
    match r {
        Ok(x) => phase_wire::told::phase(0, x.phase),
        Err(x) => phase_wire::told::phase(x.why.number(), x.state),
    }
}

// The slot that a head makes due: nothing, or its head and its steps ..
pub(crate) fn due(r: Result<Headed, Refused<Option<Held>>>) -> [u64; 24]
    ensures { result ≡ due_told r }
{
    match r {
        Err(x) => fields::four(x.why.number(), 0, 0, 0),
        Ok(x) => match x.due {
            None => fields::four(0, 0, 0, 0),
            Some(s) => phase_wire::told::head(
                0,
                s.head,
                s.delta.to_bits(),
                s.gain.to_bits(),
                s.gamma.to_bits(),
            ),
        },
    }
}

// .. and its next head.
pub(crate) fn next(r: Result<Headed, Refused<Option<Held>>>) -> [u64; 24]
    ensures { result ≡ next_told r }
{
    match r {
        Err(x) => fields::four(x.why.number(), 0, 0, 0),
        Ok(x) => match x.due {
            None => fields::four(0, 0, 0, 0),
            Some(s) => phase_wire::told::head(0, s.next, 0, 0, 0),
        },
    }
}

pub(crate) fn whole(w: Result<i64, Refusal>) -> [u64; 24]
    ensures { result ≡ whole_told w }
{
    match w {
        Ok(v) => fields::four(0, v.to_bits(), 0, 0),
        Err(why) => fields::four(why.number(), 0, 0, 0),
    }
}

fn corrected(c: Corrected) -> [u64; 24]
    ensures { result ≡ corrected_told c }
{
    let s = slot_wire::slot_shown(c.slot);
    [
        0,
        c.at,
        slot_wire::word_number(c.word),
        s.known,
        s.number,
        s.frame,
        c.j as u64,
        c.r.i.to_bits(),
        c.r.q.to_bits(),
        c.phi as u64,
        c.gain.to_bits(),
        c.y.i.to_bits(),
        c.y.q.to_bits(),
        0,
        0,
        0,
        0,
        0,
        0,
        0,
        0,
        0,
        0,
        0,
    ]
}

// Nothing is told of a refused symbol but the number.
pub(crate) fn answered(r: Result<Answered, Refused<WholeSlot>>) -> [u64; 24]
    ensures { result ≡ answered_told r }
{
    match r {
        Ok(a) => corrected(a.told),
        Err(x) => fields::four(x.why.number(), 0, 0, 0),
    }
}
