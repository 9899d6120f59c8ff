// The heads of a call: each to the carrier, then to the slot phase.
ghost use Rattle.std.specs.Prelude.{◌≡◌};
ghost use Rattle.sync_step.specs.declared.Event.TheVariants.{Head as Told};
ghost use Rattle.carrier.specs.Carrier.{heard_of};
ghost use Rattle.carrier.specs.Ranges.{NcoOk};
ghost use Rattle.phase.specs.Ranges.{PhaseOk};
ghost use Rattle.receiver.specs.Heads.{or_due, event_heard, listened, is_lost, loses_in};
ghost use Rattle.receiver_symbol.specs.Parts.{TuneOk, HeadHeard, HearOk, EventsOk, DueOk};

use carrier::Nco;
use phase::WholeSlot;
use receiver::Listened;
use sync_heads::{Head, Word};
use sync_step::{Event, Events};

fn or_due(a: Option<WholeSlot>, b: Option<WholeSlot>) -> Option<WholeSlot>
    ensures { result ≡ or_due a b }
{
    match a {
        None => b,
        Some(w) => Some(w),
    }
}

fn tuned(n: Nco, h: Head) -> Nco
    requires { TuneOk n h.word }
    ensures { result ≡ (heard_of n h).nco }
{
    let w = h.word;
    match w {
        Word::Ssync => {
            let x = carrier::ranged::heard(n, h);
            x.nco
        }
        Word::Fsync => n,
        Word::NotFsync => n,
    }
}

fn head_heard(l: Listened, h: Head) -> Listened
    requires { HeadHeard l h }
    ensures { result ≡ event_heard 9296 l (Told h) }
{
    let n = l.nco;
    let p = l.phase;
    let d = l.due;
    Listened {
        nco: tuned(n, h),
        phase: phase::plain::begun(h),
        due: or_due(d, phase::ranged::due(p, h)),
    }
}

fn event_heard(l: Listened, e: Event) -> Listened
    requires { HearOk l e }
    ensures { result ≡ event_heard 9296 l e }
{
    match e {
        Event::Nothing => l,
        Event::Head(h) => head_heard(l, h),
        Event::Period(_) => l,
        Event::Lost(_) => l,
    }
}

// The events of a call in order.
pub(crate) fn listen(l: Listened, es: Events) -> Listened
    requires { (NcoOk l.nco) × (PhaseOk l.phase) × (DueOk l.due) × (EventsOk es) }
    ensures { (result ≡ listened 9296 l es) × (DueOk result.due) }
{
    let a = es.first;
    let b = es.second;
    let c = es.third;
    event_heard(event_heard(event_heard(l, a), b), c)
}

fn is_lost(e: Event) -> bool
    ensures { result ≡ is_lost e }
{
    match e {
        Event::Nothing => false,
        Event::Head(_) => false,
        Event::Period(_) => false,
        Event::Lost(_) => true,
    }
}

pub(crate) fn loses(es: Events) -> bool
    ensures { result ≡ loses_in es }
{
    let a = es.first;
    let b = es.second;
    let c = es.third;
    is_lost(a) | is_lost(b) | is_lost(c)
}
