// What compare/src/bench_receiver.rs measures: a stream through `feed` and through `symbol` of a new receiver, as C functions. They are no entries (docs/DECISIONS.md, F.19).
#![tactic(auto)]

ghost use Rattle.std.specs.Prelude.{◌≡◌, ◌+◌, ◌*◌, ◌/◌, ◌≤◌, ◌<◌, ◌^◌, length};
ghost use Rattle.receiver.specs.Feed.{feed_of};
ghost use Rattle.receiver.specs.Answers.{new_acc};
ghost use Rattle.receiver_feed.specs.Answers.{feed_answer, used_in};
ghost use Rattle.refusal.specs.Refusals.{state_after};
ghost use Rattle.receiver_bench.specs.Streams.{begun_of, feed_many, left_in, lent_of, new_flow, received, rest_of, symbol_many, taken_in};

use receiver::{Answer, Receiver};
use receiver_feed::Fed;
use refusal::Refused;

#[repr(C)]
#[derive(Clone, Copy)]
pub struct Words {
    pub f: [i8; 48],
    pub s: [i8; 48],
}

// Symbols taken, and the refusal of the last call, as the number that C is given.
#[repr(C)]
#[derive(Clone, Copy)]
pub struct Received {
    pub taken: usize,
    pub refusal: u8,
}

// A receiver, and the refusal of its last call, as it goes into `Received`.
#[derive(Clone, Copy)]
struct Begun {
    receiver: Receiver,
    refusal: u8,
}

// .. with the symbols that it took.
#[derive(Clone, Copy)]
struct Taken {
    receiver: Receiver,
    used: usize,
    refusal: u8,
}

fn taken_of(answer: Result<Fed, Refused<Receiver>>) -> Taken
    ensures { result ≡ taken_in answer }
{
    match &answer {
        Ok(a) => Taken {
            receiver: a.receiver,
            used: a.used,
            refusal: 0,
        },
        Err(x) => Taken {
            receiver: x.state,
            used: 0,
            refusal: x.why.number(),
        },
    }
}

// Not inlined, since the compiler would then move each number of the receiver by itself.
#[inline(never)]
fn left_of(answer: &Result<Answer, Refused<Receiver>>) -> Begun
    ensures { result ≡ left_in answer.now }
{
    match answer {
        Ok(a) => Begun {
            receiver: a.receiver,
            refusal: 0,
        },
        Err(x) => Begun {
            receiver: x.state,
            refusal: x.why.number(),
        },
    }
}

fn state(answer: Result<Receiver, Refused<Receiver>>) -> Receiver
    ensures { result ≡ state_after answer }
{
    match &answer {
        Ok(r) => *r,
        Err(x) => x.state,
    }
}

// A new receiver with this constellation.
fn begin(bits: u8, points: &[i16], k: i64, acc: &mut [u32]) -> Begun
    ensures { (result ≡ begun_of bits points.now k acc.old) × (acc.new ≡ new_acc acc.old) }
{
    let r = state(receiver::new(0, 0, acc));
    match &receiver::load_points(r, bits, points, k) {
        Ok(r) => Begun {
            receiver: *r,
            refusal: 0,
        },
        Err(x) => Begun {
            receiver: x.state,
            refusal: x.why.number(),
        },
    }
}

// One call with the symbols from symbol k on.
fn turn(
    r: Receiver,
    bytes: &[i8],
    k: usize,
    words: Words,
    table: &[i16],
    acc: &mut [u32],
    store: &mut [i16],
    soft: &mut [i8],
) -> Result<Fed, Refused<Receiver>>
    requires { 2 * k ≤ length bytes.now }
    ensures { (result ≡ feed_answer r (rest_of (record { bytes = bytes.now; f = words.f; s = words.s; table = table.now }) k) (lent_of acc.old store.old soft.old)) × (lent_of acc.new store.new soft.new ≡ (feed_of r (rest_of (record { bytes = bytes.now; f = words.f; s = words.s; table = table.now }) k) (lent_of acc.old store.old soft.old)).lent) × (2 * (k + used_in result) ≤ length bytes.now) }
{
    receiver_feed::feed(
        r,
        &bytes[2 * k..],
        words.f,
        words.s,
        table,
        acc,
        store,
        soft,
    )
}

// A new receiver with this constellation takes a stream in so many calls of `feed`.
#[unsafe(no_mangle)]
pub extern "C" fn measure_receive(
    bytes: &[i8],
    words: Words,
    table: &[i16],
    bits: u8,
    points: &[i16],
    k: i64,
    calls: u32,
    acc: &mut [u32],
    store: &mut [i16],
    soft: &mut [i8],
) -> Received
    ensures { (result ≡ received (feed_many (record { bytes = bytes.now; f = words.f; s = words.s; table = table.now }) calls (new_flow bits points.now k (lent_of acc.old store.old soft.old)))) × (lent_of acc.new store.new soft.new ≡ (feed_many (record { bytes = bytes.now; f = words.f; s = words.s; table = table.now }) calls (new_flow bits points.now k (lent_of acc.old store.old soft.old))).lent) }
{
    let b = begin(bits, points, k, acc);
    let mut r = b.receiver;
    let mut refusal = b.refusal;
    let mut taken: usize = 0;
    for j in 0u32..calls {
        let x = taken_of(turn(r, bytes, taken, words, table, acc, store, soft));
        r = x.receiver;
        taken += x.used;
        refusal = x.refusal;
    }
    Received { taken, refusal }
}

// .. symbol by symbol.
#[unsafe(no_mangle)]
pub extern "C" fn measure_symbols(
    bytes: &[i8],
    words: Words,
    table: &[i16],
    bits: u8,
    points: &[i16],
    k: i64,
    acc: &mut [u32],
    store: &mut [i16],
    soft: &mut [i8],
) -> Received
    ensures { (result ≡ received (symbol_many (record { bytes = bytes.now; f = words.f; s = words.s; table = table.now }) (length bytes.now / 2) (new_flow bits points.now k (lent_of acc.old store.old soft.old)))) × (lent_of acc.new store.new soft.new ≡ (symbol_many (record { bytes = bytes.now; f = words.f; s = words.s; table = table.now }) (length bytes.now / 2) (new_flow bits points.now k (lent_of acc.old store.old soft.old))).lent) }
{
    let b = begin(bits, points, k, acc);
    let mut r = b.receiver;
    let mut refusal = b.refusal;
    let m = bytes.len() / 2;
    for i in 0..m {
        let x = left_of(&receiver_symbol::symbol(
            r,
            bytes[2 * i],
            bytes[2 * i + 1],
            words.f,
            words.s,
            table,
            acc,
            store,
            soft,
        ));
        r = x.receiver;
        refusal = x.refusal;
    }
    Received { taken: m, refusal }
}
