// For the program, which proves that there is room.
ghost use Rattle.std.specs.Prelude.{◌≡◌, ◌+◌, ◌-◌, ◌<◌, ◌≤◌, length};
ghost use Rattle.lines.specs.Place.{Wrote};
ghost use Rattle.bench_text.specs.Bench.{is_main, prints_of, events_text, last_text};
ghost use Rattle.bench_text.specs.Pages.{more_of, line_of, page_of, paged_by};

use crate::Page;
use frame_map::SlotPart;
use receiver_slot::AlignedRun;
use sync_step::Events;

// The lines of the three event places.
pub fn events(es: Events, out: &mut [u8], place: usize) -> usize
    requires { place + 768 ≤ length out.old }
    ensures { Wrote out.old place (events_text es) out.new result }
{
    let a = lines::event(es.first, out, place).unwrap();
    let b = lines::event(es.second, out, a).unwrap();
    lines::event(es.third, out, b).unwrap()
}

// The last line: the number of symbols, or of a refusal. It prints any number, as it did before refusals were an enum.
pub fn last(ended: Result<u64, u8>, out: &mut [u8], place: usize) -> usize
    requires { place + 256 ≤ length out.old }
    ensures { Wrote out.old place (last_text ended) out.new result }
{
    match ended {
        Ok(symbols) => lines::end(symbols, out, place).unwrap(),
        Err(n) => lines::refused(u64::from(n), out, place).unwrap(),
    }
}

fn is_main(j: usize) -> bool
    ensures { result ≡ is_main j }
{
    let part = frame_map::part(j);
    match part {
        Ok(SlotPart::Main(_)) => true,
        Ok(SlotPart::Sync(_)) => false,
        Ok(SlotPart::Pilot(_)) => false,
        Ok(SlotPart::Tmcc(_)) => false,
        Err(_) => false,
    }
}

// Whether a symbol of slot index j has a line.
fn prints(j: usize, bits: u8) -> bool
    ensures { result ≡ prints_of j bits }
{
    is_main(j) & (1 <= bits) & (bits <= 5)
}

// The next symbol of a run, with its line if it has one.
fn line(run: AlignedRun, p: Page, soft: &[i8], out: &mut [u8]) -> Page
    requires { (p.i < run.count) × (p.v ≤ length soft.now) × (p.place + 256 ≤ length out.old) }
    ensures { (paged_by result soft.now out.new ≡ line_of run (paged_by p soft.now out.old)) × (result.i ≡ p.i + 1) × (result.v ≤ length soft.now) }
{
    let j = usize::from(run.j) + p.i;
    if prints(j, run.bits) {
        let v = (p.v + usize::from(run.bits)).min(soft.len());
        let at = run.at.wrapping_add(p.i as u64);
        let place = lines::soft(at, j as u16, &soft[p.v..v], out, p.place).unwrap();
        Page {
            i: p.i + 1,
            v,
            place,
        }
    } else {
        Page { i: p.i + 1, ..p }
    }
}

// Whether a run of n symbols goes on at its symbol i, with room for a line.
fn more(n: u16, i: usize, room: usize, place: usize) -> bool
    ensures { result ≡ more_of n i room place }
{
    if room < 256 {
        false
    } else {
        (i < usize::from(n)) & (place <= room - 256)
    }
}

// The lines of a run from where p stands on, to its end or as far as there is room, which is what the loop asks.
pub fn fill(run: AlignedRun, p: Page, soft: &[i8], out: &mut [u8]) -> Page
    requires { p.v ≤ length soft.now }
    ensures { (paged_by result soft.now out.new ≡ page_of run (run.count - p.i) (paged_by p soft.now out.old)) × (result.v ≤ length soft.now) }
{
    let mut q = p;
    'lines: while more(run.count, q.i, out.len(), q.place) {
        q = line(run, q, soft, out);
    }
    q
}
