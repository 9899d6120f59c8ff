// The lines that the bench program prints, written into a lent buffer: document 01, "Capture". Contracts name the bytes that stand in the buffer and what
// is left of it where a line is refused. std's `write!` to a slice promises neither, so that each line is put together here.
#![tactic(auto)]

mod put;

ghost use Rattle.std.specs.Prelude.{◌≡◌, ◌++◌, ◌+◌, ◌≤◌, length};
ghost use Rattle.lines.specs.Place.{Wrote, room_refusal, printed_at, printed_into};
ghost use Rattle.lines.specs.Lines.{number_then, period_line, letter_of, slot_text, head_line, event_line, soft_line, soft_refusal, end_line, refused_line};

use refusal::Refusal;
use sync_heads::{Head, SlotNumber, Word};
use sync_step::{Event, SyncStats};

// `period PEAK PEAKPOS SUM LOCKED`. Functions that write have the room that is asked for, and answer the place behind the line.
fn period(out: &mut [u8], at: usize, p: SyncStats) -> usize
    requires { at + 256 ≤ length out.old }
    ensures { Wrote out.old at (period_line p) out.new result }
{
    let a = put::text(out, at, b"period ");
    let b = put::number_then(out, a, u64::from(p.peak), b' ');
    let c = put::number_then(out, b, u64::from(p.peak_pos), b' ');
    let d = put::number_then(out, c, p.sum, b' ');
    put::number_then(out, d, u64::from(p.offset.is_some()), b'\n')
}

// S, F or N: the byte of a line, which a `Display` would write to a place that no contract names.
fn letter(w: Word) -> u8
    ensures { result ≡ letter_of w }
{
    match w {
        Word::Ssync => b'S',
        Word::Fsync => b'F',
        Word::NotFsync => b'N',
    }
}

// NUMBER FRAME and the line's end.
fn slot(out: &mut [u8], at: usize, s: Option<SlotNumber>) -> usize
    requires { at + 42 ≤ length out.old }
    ensures { Wrote out.old at (slot_text s) out.new result }
{
    match s {
        None => put::text(out, at, b"- -\n"),
        Some(s) => {
            let a = put::number_then(out, at, u64::from(s.number), b' ');
            put::number_then(out, a, u64::from(s.frame), b'\n')
        }
    }
}

// `head AT WORD NUMBER FRAME`
fn head(out: &mut [u8], at: usize, h: Head) -> usize
    requires { at + 256 ≤ length out.old }
    ensures { Wrote out.old at (head_line h) out.new result }
{
    let a = put::text(out, at, b"head ");
    let b = put::number_then(out, a, h.at, b' ');
    let c = put::text(out, b, &[letter(h.word), b' ']);
    slot(out, c, h.slot)
}

// A line of a word, with the blank behind it, and a number.
fn counted(out: &mut [u8], at: usize, word: &[u8], n: u64) -> usize
    requires { (at + 256 ≤ length out.old) × (length word.now ≤ 16) }
    ensures { Wrote out.old at (word.now ++ number_then n 10) out.new result }
{
    let a = put::text(out, at, word);
    put::number_then(out, a, n, b'\n')
}

fn told(out: &mut [u8], at: usize, e: Event) -> usize
    requires { at + 256 ≤ length out.old }
    ensures { Wrote out.old at (event_line e) out.new result }
{
    match e {
        Event::Nothing => at,
        Event::Head(h) => head(out, at, h),
        Event::Period(p) => period(out, at, p),
        Event::Lost(n) => counted(out, at, b"lost ", n),
    }
}

// Refuses where there is no room for a line.
fn room(length: usize, at: usize) -> Result<(), Refusal>
    ensures { result ≡ room_refusal at length }
{
    if length < 256 {
        Err(Refusal::Stores)
    } else if at <= length - 256 {
        Ok(())
    } else {
        Err(Refusal::Stores)
    }
}

// An event's line from place `at` on; none for no event. Answers the place behind what was written; where it is refused, nothing is written.
pub fn event(e: Event, out: &mut [u8], at: usize) -> Result<usize, Refusal>
    ensures { (result ≡ printed_at (room_refusal at (length out.old)) (event_line e) at) × (out.new ≡ printed_into (room_refusal at (length out.old)) (event_line e) at out.old) }
{
    room(out.len(), at)?;
    Ok(told(out, at, e))
}

// The last line: `end SYMBOLS`.
pub fn end(symbols: u64, out: &mut [u8], at: usize) -> Result<usize, Refusal>
    ensures { (result ≡ printed_at (room_refusal at (length out.old)) (end_line symbols) at) × (out.new ≡ printed_into (room_refusal at (length out.old)) (end_line symbols) at out.old) }
{
    room(out.len(), at)?;
    Ok(counted(out, at, b"end ", symbols))
}

// .. or `refused NUMBER`. The line takes any number, as it did before refusals were an enum, since a narrower type would ask more of callers.
pub fn refused(n: u64, out: &mut [u8], at: usize) -> Result<usize, Refusal>
    ensures { (result ≡ printed_at (room_refusal at (length out.old)) (refused_line n) at) × (out.new ≡ printed_into (room_refusal at (length out.old)) (refused_line n) at out.old) }
{
    room(out.len(), at)?;
    Ok(counted(out, at, b"refused ", n))
}

// `soft AT J` and the values.
fn written(out: &mut [u8], place: usize, at: u64, j: u16, values: &[i8]) -> usize
    requires { (place + 256 ≤ length out.old) × (length values.now ≤ 5) }
    ensures { Wrote out.old place (soft_line at j values.now) out.new result }
{
    let a = put::text(out, place, b"soft ");
    let b = put::number_then(out, a, at, b' ');
    let c = put::number(out, b, u64::from(j));
    put::values(out, c, values)
}

// The line of a main symbol's soft values, of which there are at most five.
pub fn soft(at: u64, j: u16, values: &[i8], out: &mut [u8], place: usize) -> Result<usize, Refusal>
    ensures { (result ≡ printed_at (soft_refusal (length values.now) place (length out.old)) (soft_line at j values.now) place) × (out.new ≡ printed_into (soft_refusal (length values.now) place (length out.old)) (soft_line at j values.now) place out.old) }
{
    room(out.len(), place)?;
    if 5 < values.len() {
        return Err(Refusal::Points);
    }
    Ok(written(out, place, at, j, values))
}
