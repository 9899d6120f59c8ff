// The stages' functions on numbers and slices, as C is given them.
ghost use Rattle.std.specs.Prelude.{◌≡◌, pos};
ghost use Rattle.carrier.specs.Carrier.{started_nco};
ghost use Rattle.carrier.specs.Answers.{rotate_answer};
ghost use Rattle.phase.specs.Answers.{gain_answer};
ghost use Rattle.demap.specs.Answers.{demap_answer, demap_buffer, scale_answer};
ghost use Rattle.frame_map.specs.Map.{part_of};
ghost use Rattle.c_api.specs.Api.{number};
ghost use Rattle.c_api.specs.Stages.{rotation, kind_of, index_of, placed};

use crate::{Number, Numbers, Two};
use carrier::Nco;
use frame_map::SlotPart;

// A rotated symbol and the phase after it; after a refusal, a number for C, the symbol is 0 and the phase as given.
#[repr(C)]
#[derive(Clone, Copy)]
pub struct Rotation {
    pub phase: u32,
    pub i: i16,
    pub q: i16,
    pub refusal: u8,
}

// One symbol rotated by a carrier that has this phase and step.
pub fn sv_rotate(phase: u32, freq: i32, xi: i8, xq: i8, table: &[i16]) -> Rotation
    ensures { result ≡ rotation (rotate_answer (started_nco phase freq) xi xq table.now) }
{
    let n = Nco {
        phase,
        freq,
        trail: None,
    };
    match carrier::rotate(n, xi, xq, table) {
        Ok(a) => Rotation {
            phase: a.nco.phase,
            i: a.symbol.i,
            q: a.symbol.q,
            refusal: 0,
        },
        Err(refused) => Rotation {
            phase: refused.state.phase,
            i: 0,
            q: 0,
            refusal: refused.why.number(),
        },
    }
}

pub fn sv_gain_of(amp: i64) -> Number
    ensures { result ≡ number (gain_answer amp) }
{
    crate::of_one(phase::gain_of(amp))
}

pub fn sv_scale_of(n0: i64) -> Number
    ensures { result ≡ number (scale_answer n0) }
{
    crate::of_one(demap::scale_of(n0))
}

// The soft bits of a symbol into a buffer's start.
pub fn sv_demap(yi: i16, yq: i16, points: &[i16], bits: usize, k: i64, out: &mut [i8]) -> Number
    ensures { (result ≡ number (demap_answer yi yq points.now bits k out.old)) × (out.new ≡ demap_buffer yi yq points.now bits k out.old) }
{
    crate::of_one(demap::demap(yi, yq, points, bits, k, out))
}

// A kind as a number, in the order of the slot, and the index among its kind.
impl Two for SlotPart {
    ghost first = { λ p. kind_of p };

    ghost second = { λ p. pos (index_of p) };

    fn first(&self) -> i64 {
        match self {
            SlotPart::Sync(_) => 0,
            SlotPart::Pilot(_) => 1,
            SlotPart::Main(_) => 2,
            SlotPart::Tmcc(_) => 3,
        }
    }

    fn second(&self) -> i64 {
        let (SlotPart::Sync(k) | SlotPart::Pilot(k) | SlotPart::Main(k) | SlotPart::Tmcc(k)) =
            *self;
        i64::from(k)
    }
}

// What stands at place j of a slot.
pub fn sv_part(j: usize) -> Numbers
    ensures { result ≡ placed (part_of j) }
{
    crate::of_two(frame_map::part(j))
}
