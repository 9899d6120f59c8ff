// What compare/src/bench_sync.rs measures: a stream through the slot sync, symbol by symbol, as a C function. It is no entry
// (docs/DECISIONS.md, F.19).
#![tactic(auto)]

ghost use Rattle.std.specs.Prelude.{◌≡◌};
ghost use Rattle.sync_bench.specs.Streams.{begun_of, left_of, pushed_stream, pushed_acc};

use refusal::Refused;
use sync::{Pushed, SlotSync};

#[repr(C)]
#[derive(Clone, Copy)]
pub struct Words {
    pub f: [i8; 48],
    pub w: [i8; 48],
}

// Symbols taken, the accumulator at the last position, and the refusal of the last call, as the number that C is given.
#[repr(C)]
#[derive(Clone, Copy)]
pub struct Streamed {
    pub taken: usize,
    pub level: u32,
    pub refusal: u8,
}

// What a symbol leaves: the sync, the accumulator at its position, and the refusal, 0 if it was taken, as it goes into `Streamed`.
#[derive(Clone, Copy)]
struct Left {
    sync: SlotSync,
    level: u32,
    refusal: u8,
}

#[tactic(auto, unfolding(crate::specs::Streams::left_of))]
fn left_by(answer: Result<Pushed, Refused<SlotSync>>) -> Left
    ensures { result ≡ left_of answer }
{
    match answer {
        Ok(p) => Left {
            sync: p.sync,
            level: p.last.level,
            refusal: 0,
        },
        Err(r) => Left {
            sync: r.state,
            level: 0,
            refusal: r.why.number(),
        },
    }
}

#[tactic(auto, unfolding(crate::specs::Streams::begun_of))]
fn begun(answer: Result<SlotSync, Refused<SlotSync>>) -> Left
    ensures { result ≡ begun_of answer }
{
    match answer {
        Ok(s) => Left {
            sync: s,
            level: 0,
            refusal: 0,
        },
        Err(r) => Left {
            sync: r.state,
            level: 0,
            refusal: r.why.number(),
        },
    }
}

// A new sync takes a stream symbol by symbol. Accumulators that `new` refuses, each symbol refuses too.
#[unsafe(no_mangle)]
pub extern "C" fn measure_push(sy: &[i16], words: Words, acc: &mut [u32]) -> Streamed
    ensures { (result ≡ pushed_stream sy.now words.f words.w acc.old) × (acc.new ≡ pushed_acc sy.now words.f words.w acc.old) }
{
    let mut t = begun(sync::new(0, acc));
    let m = sy.len() / 2;
    for k in 0..m {
        t = left_by(sync::push(t.sync, sy[2 * k], sy[2 * k + 1], words.f, words.w, acc));
    }
    Streamed {
        taken: m,
        level: t.level,
        refusal: t.refusal,
    }
}
