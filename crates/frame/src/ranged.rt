// For the entries and the receiver, which prove the ranges.
ghost use Rattle.std.specs.Prelude.{◌≡◌, true};
ghost use Rattle.frame_line.specs.Ranges.{last_in_range};
ghost use Rattle.frame.specs.Align.{joined_to, trained_at, taken_by, pushed_back};
ghost use Rattle.frame.specs.Ranges.{MetaOk, TakeOk, PushOk};

use crate::{AlignedSymbol, Back, Pushed};
use eq::Equaliser;
use frame_line::Meta;
use phase::Corrected;

// The back that a symbol at this position joins: a gap restarts it.
pub fn joined_to(b: Back, at: u64) -> Back
    requires { last_in_range b.last ≡ true }
    ensures { result ≡ joined_to b at }
{
    if frame_line::ranged::gap(b.last, at) {
        crate::plain::restarted(b)
    } else {
        b
    }
}

// An aligned symbol: a sync symbol trains against its own word.
fn trained(e: Equaliser, m: Meta, f: &[i8; 48], s: &[i8; 48]) -> Equaliser
    requires { MetaOk e m f.now s.now }
    ensures { result ≡ trained_at e m f.now s.now }
{
    if m.j < 24 {
        let d = frame_map::ranged::reference(m.word, m.j as usize, f, s);
        eq::ranged::trained(e, d.i, d.q)
    } else {
        e
    }
}

// A symbol that the back can take.
fn taken(b: Back, c: Corrected, f: &[i8; 48], s: &[i8; 48]) -> Pushed
    requires { TakeOk b c f.now s.now }
    ensures { result ≡ taken_by b c f.now s.now }
{
    let y = c.y;
    let e = eq::plain::pushed(b.eq, y.i, y.q);
    let m = frame_line::plain::meta_of(c);
    let last = Some(c.at);
    if b.metas.count < 5 {
        return Pushed {
            back: Back {
                eq: e,
                metas: frame_line::ranged::join(b.metas, m),
                last,
            },
            out: None,
        };
    }
    let first = b.metas.first;
    let z = eq::plain::output_of(e).unwrap_or(y);
    Pushed {
        back: Back {
            eq: trained(e, first, f, s),
            metas: frame_line::plain::move_up(b.metas, m),
            last,
        },
        out: Some(AlignedSymbol { meta: first, z }),
    }
}

pub fn pushed(b: Back, c: Corrected, f: &[i8; 48], s: &[i8; 48]) -> Pushed
    requires { PushOk b c f.now s.now }
    ensures { result ≡ pushed_back b c f.now s.now }
{
    taken(joined_to(b, c.at), c, f, s)
}
