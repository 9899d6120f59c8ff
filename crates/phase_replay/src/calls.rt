// What each call answers. Its numbers are those of p; number 0 has told which call it is.
ghost use Rattle.std.specs.Prelude.{◌≡◌};
ghost use Rattle.phase.specs.Answers.{head_answer};
ghost use Rattle.phase_wire.specs.Given.{head_of, phase_of};
ghost use Rattle.phase_replay.specs.Calls.{new_call, rotate_call, hear_call, nco_restart_call, gain_call, restart_call, push_call, push_left, correct_call};

use crate::{given, told};
use phase::{Headed, Held};
use refusal::Refused;
use wire::Field;

pub(crate) fn nco_new(p: &[u64; 24]) -> [u64; 24]
    ensures { result ≡ new_call p.now }
{
    let n = carrier::new(i32::of_bits(p[1]));
    phase_wire::told::nco(0, n, 0, 0)
}

pub(crate) fn rotate(p: &[u64; 24], table: &[i16]) -> [u64; 24]
    ensures { result ≡ rotate_call p.now table.now }
{
    let n = phase_wire::nco_at(p);
    let k = fields::least(p[9], table.len());
    told::rotated(carrier::rotate(n, i8::of_bits(p[7]), i8::of_bits(p[8]), &table[..k]))
}

pub(crate) fn hear(p: &[u64; 24]) -> [u64; 24]
    ensures { result ≡ hear_call p.now }
{
    let n = phase_wire::nco_at(p);
    let h = phase_wire::ranged::head_at(p, 7);
    told::heard(carrier::head(n, h))
}

pub(crate) fn nco_restart(p: &[u64; 24]) -> [u64; 24]
    ensures { result ≡ nco_restart_call p.now }
{
    let n = phase_wire::nco_at(p);
    told::restarted(carrier::restart(n))
}

pub(crate) fn gain(p: &[u64; 24]) -> [u64; 24]
    ensures { result ≡ gain_call p.now }
{
    told::whole(phase::gain_of(i64::of_bits(p[1])))
}

pub(crate) fn restart(p: &[u64; 24]) -> [u64; 24]
    ensures { result ≡ restart_call p.now }
{
    let s = phase_wire::phase_at(p);
    told::held(phase::restart(s))
}

pub(crate) fn push(p: &[u64; 24], store: &mut [i16]) -> [u64; 24]
    ensures { (result ≡ push_call p.now store.old) × (store.new ≡ push_left p.now store.old) }
{
    let s = phase_wire::phase_at(p);
    let k = fields::least(p[15], store.len());
    let r = phase::push(s, i16::of_bits(p[13]), i16::of_bits(p[14]), &mut store[..k]);
    told::held(r)
}

// A head's answer has too many numbers for one: three calls tell its parts.
pub(crate) fn head(p: &[u64; 24]) -> Result<Headed, Refused<Option<Held>>>
    ensures { result ≡ head_answer (phase_of p.now) (head_of p.now 13) }
{
    let s = phase_wire::phase_at(p);
    let h = phase_wire::ranged::head_at(p, 13);
    phase::head(s, h)
}

pub(crate) fn correct(p: &[u64; 24], table: &[i16], store: &[i16]) -> [u64; 24]
    ensures { result ≡ correct_call p.now table.now store.now }
{
    let s = given::whole_at(p);
    let k = fields::least(p[17], table.len());
    let l = fields::least(p[18], store.len());
    told::answered(phase::correct(s, p[16] as usize, &table[..k], &store[..l]))
}
