// Reads a capture from standard input and prints its lines: document 01, "Capture". What is printed for an answer stands in crate bench_text; here it
// is only read, called and written, in blocks of 65,536 bytes, whatever the capture's length. How it reads and writes where the system fails it or lets it wait
// stands in system.rt: such a failure ends the program, with the lines so far and no last one.
#![tactic(auto)]

mod system;

ghost use Rattle.std.specs.Prelude.{◌≡◌, ◌+◌, ◌≤◌, length, drop, IsOk, IfOk};
ghost use Rattle.bench_text.specs.Claims.{left_on, answer_left, leaves_page, leaves_buffer, room_at};

use bench_text::Page;
use capture::{Heading, Points, Words};
use receiver::Receiver;
use receiver_slot::{AlignedRun, Runs};
use refusal::{Refusal, Refused};
use sync_step::Events;
use system::{Failed, Moved};

// What the receiver is lent, in fixed memory.
#[derive(Drop)]
struct Lent {
    table: [i16; 1024],
    acc: [u32; 9296],
    store: [i16; 18592],
    soft: [i8; 44880],
}

// Why no block follows, though the input has not ended: the capture is refused, or its next bytes could not be read.
#[derive(Clone, Copy)]
enum Over {
    Refused(Refusal),
    Unread,
}

// Where the program stands: the receiver, the next place of the output, the bytes that are still declared, and if the capture is over. A write that fails ends
// the program at once, so that it stands nowhere then.
#[derive(Clone, Copy)]
struct Stand {
    receiver: Receiver,
    place: usize,
    left: u32,
    over: Option<Over>,
}

// What a run of lines leaves: the next soft value, the next place of the output, and if all writing went well. The values count where it did not as well, since the
// lines of the next run are tried even then.
#[derive(Clone, Copy)]
struct Ran {
    v: usize,
    place: usize,
    written: Result<(), Failed>,
}

fn write(rt: &HostRuntime, out: &[u8; 65536], n: usize) -> Result<(), Failed> {
    if n <= out.len() {
        system::write(rt, &out[..n])?;
        Ok(())
    } else {
        Err(Failed)
    }
}

// A place with room for 768 bytes, three lines; what stands before it is written if it must.
fn with_room(rt: &HostRuntime, out: &[u8; 65536], place: usize) -> Result<usize, Failed>
    ensures { IfOk result (λ p. (p ≡ room_at place) × (p + 768 ≤ 65536)) }
{
    if place <= 64768 {
        Ok(place)
    } else {
        write(rt, out, place)?;
        Ok(0)
    }
}

// The lines of a run, page by page, whose first soft value is value v. A page of a fresh buffer holds a line, so that no run uses up the turns.
fn run(
    rt: &HostRuntime,
    r: AlignedRun,
    soft: &[i8],
    v: usize,
    out: &mut [u8; 65536],
    place: usize,
) -> Ran
    requires { v ≤ length soft.now }
    ensures { (result.v ≤ length soft.now) × (IsOk result.written → leaves_page (left_on 65536 r (drop v soft.now) place out.old) (drop result.v soft.now) result.place out.new) }
{
    let mut p = Page { i: 0, v, place };
    'pages: for _ in 0..65536u32 {
        p = bench_text::ranged::fill(r, p, soft, out);
        if usize::from(r.count) <= p.i {
            return Ran {
                v: p.v,
                place: p.place,
                written: Ok(()),
            };
        }
        let written = write(rt, out, p.place);
        p.place = 0;
        if written.is_err() {
            return Ran {
                v: p.v,
                place: p.place,
                written,
            };
        }
    }
    Ran {
        v: p.v,
        place: p.place,
        written: Ok(()),
    }
}

// Events in order, then soft lines. A function of its own, since what it needs on the stack is then not needed below it, where a feed is made.
#[inline(never)]
fn answer(
    rt: &HostRuntime,
    es: Events,
    rs: Runs,
    soft: &[i8],
    out: &mut [u8; 65536],
    place: usize,
) -> Result<usize, Failed>
    ensures { IfOk result (λ p. leaves_buffer (answer_left 65536 es rs soft.now (room_at place) out.old) p out.new) }
{
    let room = with_room(rt, out, place)?;
    let e = bench_text::ranged::events(es, out, room);
    let x = run(rt, rs.tail, soft, 0, out, e);
    let y = run(rt, rs.body, soft, x.v, out, x.place);
    x.written?;
    y.written?;
    Ok(y.place)
}

// The byte behind so many symbols from `from` on, at most the last.
fn onward(from: usize, used: usize, len: usize) -> usize
    ensures { result ≤ len }
{
    if len <= from || (len - from) / 2 < used {
        len
    } else {
        from + 2 * used
    }
}

// All symbols of a block. Each turn uses one or more, up to and with the first that tells anything.
fn play(
    rt: &HostRuntime,
    t: &mut Stand,
    bytes: &[i8],
    words: Words,
    lent: &mut Lent,
    out: &mut [u8; 65536],
) -> Result<(), Failed> {
    let mut from = 0;
    'turns: for _ in 0..bytes.len() / 2 {
        let answered = receiver_feed::feed(
            t.receiver,
            &bytes[from..],
            words.f,
            words.s,
            &lent.table,
            &mut lent.acc,
            &mut lent.store,
            &mut lent.soft,
        );
        let fed = match &answered {
            Ok(fed) => fed,
            Err(refused) => {
                t.over = Some(Over::Refused(refused.why));
                return Ok(());
            }
        };
        t.receiver = fed.receiver;
        t.place = answer(rt, fed.events, fed.runs, &lent.soft, out, t.place)?;
        from = onward(from, fed.used, bytes.len());
        if fed.used == 0 || bytes.len() <= from {
            break;
        }
    }
    Ok(())
}

// A block of the bytes behind the points; read: if more could have been read.
fn block(
    rt: &HostRuntime,
    t: &mut Stand,
    bytes: &[u8],
    read: Result<(), Failed>,
    signed: &mut [i8; 65536],
    words: Words,
    lent: &mut Lent,
    out: &mut [u8; 65536],
) -> Result<(), Failed> {
    let h = capture::share(t.left, bytes.len());
    let m = h.count.min(bytes.len());
    let n = capture::symbols(&bytes[..m], signed).min(signed.len());
    play(rt, t, &signed[..n], words, lent, out)?;
    t.over = match (read, t.over) {
        (Err(_), _) => Some(Over::Unread),
        (Ok(()), Some(over)) => Some(over),
        (Ok(()), None) if h.over => Some(Over::Refused(Refusal::Bodies)),
        (Ok(()), None) => None,
    };
    t.left = h.left;
    Ok(())
}

// The blocks after the first, up to one that is not full. A proved loop has to end, and nothing says that the input does: the turns are as many as a u64 counts, which
// no run uses up.
fn blocks(
    rt: &HostRuntime,
    t: &mut Stand,
    buf: &mut [u8; 65536],
    signed: &mut [i8; 65536],
    words: Words,
    lent: &mut Lent,
    out: &mut [u8; 65536],
) -> Result<(), Failed> {
    'blocks: for _ in 0..u64::MAX {
        if t.over.is_some() {
            break;
        }
        let m = system::read(rt, buf);
        block(rt, t, &buf[..m.count], m.end, signed, words, lent, out)?;
        if m.count < buf.len() {
            break;
        }
    }
    Ok(())
}

// The last line, and all that is not written yet.
fn finish(
    rt: &HostRuntime,
    ended: Result<u64, Refusal>,
    place: usize,
    out: &mut [u8; 65536],
) -> Result<(), Failed> {
    let room = with_room(rt, out, place)?;
    let told = match ended {
        Ok(symbols) => Ok(symbols),
        Err(why) => Err(why.number()),
    };
    let n = bench_text::ranged::last(told, out, room);
    write(rt, out, n)
}

// A receiver at position 0 with step 0 and the capture's points.
fn start(points: &Points, acc: &mut [u32]) -> Result<Receiver, Refused<Receiver>> {
    let r = receiver::new(0, 0, acc)?;
    receiver::load_points(r, points.bits, points.loaded(), i64::from(points.k))
}

// What a capture ends with. Where a read failed nobody knows what would have followed, so that the lines so far are the last.
fn conclude(
    rt: &HostRuntime,
    t: &Stand,
    declared: u32,
    out: &mut [u8; 65536],
) -> Result<(), Failed> {
    match t.over {
        Some(Over::Unread) => write(rt, out, t.place),
        Some(Over::Refused(why)) => finish(rt, Err(why), t.place, out),
        None if t.left == 0 => finish(rt, Ok(u64::from(declared / 2)), t.place, out),
        None => finish(rt, Err(Refusal::Bodies), t.place, out),
    }
}

// A capture whose header is accepted: the rest of the first block, and those after it.
fn accepted(
    rt: &HostRuntime,
    h: Heading,
    m: Moved,
    buf: &mut [u8; 65536],
    signed: &mut [i8; 65536],
    lent: &mut Lent,
    out: &mut [u8; 65536],
) -> Result<(), Failed>
    requires { m.count ≤ 65536 }
{
    let receiver = match start(&h.points, &mut lent.acc) {
        Ok(receiver) => receiver,
        Err(refused) => return finish(rt, Err(refused.why), 0, out),
    };
    let mut t = Stand {
        receiver,
        place: 0,
        left: h.declared,
        over: None,
    };
    let from = h.from.min(m.count);
    block(
        rt,
        &mut t,
        &buf[from..m.count],
        m.end,
        signed,
        h.words,
        lent,
        out,
    )?;
    blocks(rt, &mut t, buf, signed, h.words, lent, out)?;
    conclude(rt, &t, h.declared, out)
}

// A header that is refused by what a failed read left of it is not told.
fn all(
    rt: &HostRuntime,
    buf: &mut [u8; 65536],
    signed: &mut [i8; 65536],
    lent: &mut Lent,
    out: &mut [u8; 65536],
) -> Result<(), Failed> {
    let m = system::read(rt, buf);
    match capture::header(&buf[..m.count], &mut lent.table) {
        Ok(h) => accepted(rt, h, m, buf, signed, lent, out),
        Err(why) => {
            m.end?;
            finish(rt, Err(why), 0, out)
        }
    }
}

fn main(rt: HostRuntime) {
    let mut buf = [0; 65536];
    let mut out = [0; 65536];
    let mut signed = [0; 65536];
    let mut lent = Lent {
        table: [0; 1024],
        acc: [0; 9296],
        store: [0; 18592],
        soft: [0; 44880],
    };
    // A failure was told when it was met, and the status says nothing of it.
    let _ = all(&rt, &mut buf, &mut signed, &mut lent, &mut out);
}
