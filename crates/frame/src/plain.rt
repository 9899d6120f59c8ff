// What the crates above share and needs nothing of its caller.
ghost use Rattle.std.specs.Prelude.{◌≡◌};
ghost use Rattle.frame.specs.Align.{started_back, restarted_back};
ghost use Rattle.frame.specs.Ranges.{back_in_range};

use crate::Back;
use eq::Equaliser;

pub fn started(e: Equaliser) -> Back
    ensures { result ≡ started_back e }
{
    Back {
        eq: e,
        metas: frame_line::plain::none(),
        last: None,
    }
}

pub(crate) fn restarted(b: Back) -> Back
    ensures { result ≡ restarted_back b }
{
    started(eq::plain::started(b.eq.taps, b.eq.from))
}

pub(crate) fn in_range(b: Back) -> bool
    ensures { result ≡ back_in_range b }
{
    eq::plain::in_range(b.eq)
        & frame_line::plain::in_range(b.metas)
        & frame_line::plain::last_in_range(b.last)
}
