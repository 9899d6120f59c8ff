// A slot sync as numbers of calls and answers, for the replay program of the receiver: its run, the heads of that run, its window.
#![tactic(auto, unfolding(crate::specs::Given::tally_of, crate::specs::Given::lock_of, crate::specs::Given::run_put, crate::specs::Given::heads_put))]

mod given;
pub mod parts;
pub mod told;

ghost use Rattle.std.specs.Prelude.{◌≡◌, ◌+◌, ◌*◌, ◌<◌};
ghost use Rattle.sync_wire.specs.Given.{run_put, heads_put, window_at, window_of};

use sync_step::Run;

// Another base and count, another running period, another lock: numbers 1 to 8.
pub fn run_put(r: Run, p: &[u64; 24]) -> Run
    ensures { result ≡ run_put r p.now }
{
    Run {
        base: p[1],
        t: p[2],
        tally: parts::tally(p[3], p[4], p[5]),
        lock: parts::lock(p[6], p[7], p[8]),
        ..r
    }
}

// Another stage of heads, another course: numbers 1 to 16.
pub fn heads_put(r: Run, p: &[u64; 24]) -> Run
    ensures { result ≡ heads_put r p.now }
{
    Run {
        stage: given::stage_at(p),
        course: given::course_at(p),
        ..r
    }
}

// The window of the bytes from 8 on.
pub fn window_at(bytes: &[u8; 192]) -> [i16; 48]
    ensures { result ≡ window_of bytes.now }
{
    std::array::from_fn(
        |k: usize| -> i16
            requires { k < 48 }
            ensures { result ≡ window_at bytes.entry.now k }
        { fields::ranged::pair_at(bytes, 8 + 2 * k) },
    )
}
