// What an answer tells, and one that tells nothing.
ghost use Rattle.std.specs.Prelude.{◌≡◌, not};
ghost use Rattle.sync_step.specs.Events.{is_nothing, no_events};
ghost use Rattle.receiver.specs.Answers.{no_runs};
ghost use Rattle.receiver.specs.Feed.{any_event, tells_any};

use crate::Answer;
use receiver_slot::{AlignedRun, Runs};
use sync_step::{Event, Events};

fn is_event(e: Event) -> bool
    ensures { result ≡ not (is_nothing e) }
{
    match e {
        Event::Nothing => false,
        Event::Head(_) => true,
        Event::Period(_) => true,
        Event::Lost(_) => true,
    }
}

fn any_event(es: Events) -> bool
    ensures { result ≡ any_event es }
{
    let a = es.first;
    let b = es.second;
    let c = es.third;
    is_event(a) | is_event(b) | is_event(c)
}

// Whether an answer tells an event or aligned symbols.
pub fn tells(a: Answer) -> bool
    ensures { result ≡ tells_any a }
{
    let es = a.events;
    let t = a.runs.tail;
    let b = a.runs.body;
    any_event(es) | (t.count != 0) | (b.count != 0)
}

pub fn no_events() -> Events
    ensures { result ≡ no_events }
{
    Events {
        first: Event::Nothing,
        second: Event::Nothing,
        third: Event::Nothing,
    }
}

pub fn no_runs() -> Runs
    ensures { result ≡ no_runs }
{
    let none = AlignedRun {
        at: 0,
        j: 0,
        count: 0,
        bits: 0,
    };
    Runs {
        tail: none,
        body: none,
    }
}
