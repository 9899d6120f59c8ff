// A feed by turns: a stretch of symbols that tell nothing, or one symbol.
ghost use Rattle.std.specs.Prelude.{◌≡◌, true, ◌&&◌, ltb, ◌+◌, ◌-◌, ◌*◌, ◌/◌, ◌≤◌, ◌<◌, ◌^◌, length};
ghost use Rattle.sync_corr.specs.Rows.{rows_of};
ghost use Rattle.receiver_bounds.specs.Bounds.{tally_within};
ghost use Rattle.receiver.specs.Ranges.{receiver_in_range};
ghost use Rattle.receiver_feed.specs.Turns.{Leads, Stands, answer_of, goes_by, goes_on, quiet_fed, rest_by, stand_from, stopped_at, told_by};

use crate::{Fed, Goes, Turn, ready, stretch};
use receiver::{Answer, Receiver};
use refusal::{Refusal, Refused};

// How an accepted symbol leaves the feed.
fn goes(a: &Answer) -> Goes
    ensures { result ≡ goes_by a.now }
{
    if receiver::told::tells(*a) {
        Goes::Told(a.events, a.runs)
    } else {
        Goes::On
    }
}

// Symbol i was given to its call.
fn told(answer: &Result<Answer, Refused<Receiver>>, i: usize) -> Turn
    requires { i < 2 ^ 63 }
    ensures { result ≡ told_by answer.now i }
{
    match answer {
        Ok(a) => Turn {
            used: i + 1,
            receiver: a.receiver,
            goes: goes(a),
        },
        Err(x) => stopped(x.why, x.state, i),
    }
}

// Symbol i would be refused.
fn stopped(why: Refusal, r: Receiver, i: usize) -> Turn
    ensures { result ≡ stopped_at why r i }
{
    Turn {
        used: i,
        receiver: r,
        goes: Goes::Refused(why),
    }
}

// Symbol i of n by its call; only the period's figures can be out of range.
fn single(
    r: Receiver,
    i: usize,
    n: usize,
    bytes: &[i8],
    f: &[i8; 48],
    s: &[i8; 48],
    table: &[i16],
    acc: &mut [u32],
    store: &mut [i16],
    soft: &mut [i8],
) -> Turn
    requires { (i < n) × (n ≡ length bytes.now / 2) × (Stands (length acc.old) (length store.old) (length soft.old) f.now s.now (length table.now)) × (receiver_in_range r ≡ tally_within r.front.sync.run.tally) }
    ensures { (rest_by (record { bytes = bytes.now; f = f.now; s = s.now; table = table.now }) n result (record { acc = acc.new; store = store.new; soft = soft.new }) ≡ stand_from (record { bytes = bytes.now; f = f.now; s = s.now; table = table.now }) (n - i) i r (record { acc = acc.old; store = store.old; soft = soft.old })) × (Leads n i result) }
{
    match ready::refusal(r) {
        Ok(()) => told(
            &receiver_symbol::ranged::known(
                r,
                bytes[2 * i],
                bytes[2 * i + 1],
                f,
                s,
                table,
                acc,
                store,
                soft,
            ),
            i,
        ),
        Err(why) => stopped(why, r, i),
    }
}

// At symbol i of n: all that is left tells nothing, or what tells nothing and the symbol after it. Two callers with something to do behind them keep the loop of
// `stretch` a function of its own: within another one the compiler would see the rows, and lose the products of 16 bits (docs/BENCHMARKS.md, "receiver").
fn turn(
    r: Receiver,
    i: usize,
    n: usize,
    bytes: &[i8],
    f: &[i8; 48],
    s: &[i8; 48],
    rows: &[i16; 192],
    table: &[i16],
    acc: &mut [u32],
    store: &mut [i16],
    soft: &mut [i8],
) -> Turn
    requires { (i < n) × (n ≡ length bytes.now / 2) × (rows.now ≡ rows_of f.now s.now) × (Stands (length acc.old) (length store.old) (length soft.old) f.now s.now (length table.now)) × (receiver_in_range r ≡ true) }
    ensures { (rest_by (record { bytes = bytes.now; f = f.now; s = s.now; table = table.now }) n result (record { acc = acc.new; store = store.new; soft = soft.new }) ≡ stand_from (record { bytes = bytes.now; f = f.now; s = s.now; table = table.now }) (n - i) i r (record { acc = acc.old; store = store.old; soft = soft.old })) × (Leads n i result) }
{
    let left = n - i;
    let m = ready::calm(r, left);
    if m == 0 {
        single(r, i, n, bytes, f, s, table, acc, store, soft)
    } else if m < left {
        let p = stretch::stretch(r, bytes, i, m, rows, table, acc, store);
        single(
            p.receiver,
            i + p.taken,
            n,
            bytes,
            f,
            s,
            table,
            acc,
            store,
            soft,
        )
    } else {
        let p = stretch::stretch(r, bytes, i, left, rows, table, acc, store);
        Turn {
            used: i + p.taken,
            receiver: p.receiver,
            goes: Goes::On,
        }
    }
}

// .. of a receiver that was handed in, or left by the symbols before: one whose numbers do not fit together may leave their range.
fn next(
    r: Receiver,
    i: usize,
    n: usize,
    bytes: &[i8],
    f: &[i8; 48],
    s: &[i8; 48],
    rows: &[i16; 192],
    table: &[i16],
    acc: &mut [u32],
    store: &mut [i16],
    soft: &mut [i8],
) -> Turn
    requires { (i < n) × (n ≡ length bytes.now / 2) × (rows.now ≡ rows_of f.now s.now) × (Stands (length acc.old) (length store.old) (length soft.old) f.now s.now (length table.now)) × (i ≡ 0 → receiver_in_range r ≡ true) }
    ensures { (rest_by (record { bytes = bytes.now; f = f.now; s = s.now; table = table.now }) n result (record { acc = acc.new; store = store.new; soft = soft.new }) ≡ stand_from (record { bytes = bytes.now; f = f.now; s = s.now; table = table.now }) (n - i) i r (record { acc = acc.old; store = store.old; soft = soft.old })) × (Leads n i result) }
{
    if ready::still(r, i) {
        turn(r, i, n, bytes, f, s, rows, table, acc, store, soft)
    } else {
        stopped(Refusal::Arithmetic, r, i)
    }
}

// Whether there is another turn of n symbols.
fn goes_on(t: &Turn, n: usize) -> bool
    ensures { result ≡ (goes_on t.now && ltb t.now.used n) }
{
    match t.goes {
        Goes::On => t.used < n,
        Goes::Told(_, _) => false,
        Goes::Refused(_) => false,
    }
}

// All turns.
pub(crate) fn all(
    r: Receiver,
    bytes: &[i8],
    f: &[i8; 48],
    s: &[i8; 48],
    rows: &[i16; 192],
    table: &[i16],
    acc: &mut [u32],
    store: &mut [i16],
    soft: &mut [i8],
) -> Turn
    requires { (rows.now ≡ rows_of f.now s.now) × (Stands (length acc.old) (length store.old) (length soft.old) f.now s.now (length table.now)) × (receiver_in_range r ≡ true) }
    ensures { rest_by (record { bytes = bytes.now; f = f.now; s = s.now; table = table.now }) result.used result (record { acc = acc.new; store = store.new; soft = soft.new }) ≡ stand_from (record { bytes = bytes.now; f = f.now; s = s.now; table = table.now }) (length bytes.now / 2) 0 r (record { acc = acc.old; store = store.old; soft = soft.old }) }
{
    let n = bytes.len() / 2;
    let mut t = Turn {
        used: 0,
        receiver: r,
        goes: Goes::On,
    };
    while goes_on(&t, n) {
        t = next(
            t.receiver, t.used, n, bytes, f, s, rows, table, acc, store, soft,
        );
    }
    t
}

// So many symbols used, of which none told anything.
fn quiet(t: Turn) -> Fed
    ensures { result ≡ quiet_fed t.used t.receiver }
{
    Fed {
        used: t.used,
        receiver: t.receiver,
        events: receiver::told::no_events(),
        runs: receiver::told::no_runs(),
    }
}

// The answer after the last turn: the refusal that stops a feed is told if nothing was used.
pub(crate) fn answer(t: Turn) -> Result<Fed, Refused<Receiver>>
    ensures { result ≡ answer_of t }
{
    match t.goes {
        Goes::On => Ok(quiet(t)),
        Goes::Told(events, runs) => Ok(Fed {
            used: t.used,
            receiver: t.receiver,
            events,
            runs,
        }),
        Goes::Refused(why) => {
            if t.used == 0 {
                Err(Refused {
                    why,
                    state: t.receiver,
                })
            } else {
                Ok(quiet(t))
            }
        }
    }
}
