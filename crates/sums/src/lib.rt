// The training sums of one frame, after `Sums` of chain/eq.rs: kept by the equaliser, given to the solver.
#![tactic(auto)]

ghost use Rattle.std.specs.Prelude.{◌≡◌};
ghost use Rattle.sums.specs.Sums.{empty_sums};

// The 66 upper entries, row by row, and the 11 right-hand entries, each a pair: its real part before its imaginary part.
#[derive(Clone, Copy)]
pub struct Sums {
    pub frame: u32,
    pub count: u32,
    pub r: [i64; 132],
    pub p: [i64; 22],
}

// The sums of a frame before its first training symbol.
pub fn new(frame: u32) -> Sums
    ensures { result ≡ empty_sums frame }
{
    Sums {
        frame,
        count: 0,
        r: [0i64; 132],
        p: [0i64; 22],
    }
}
