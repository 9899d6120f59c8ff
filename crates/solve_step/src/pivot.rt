// The pivot of a column. A test with a NaN is false: a NaN takes over from nothing, nothing takes over from a NaN, and a NaN is not too small.
ghost use Rattle.std.specs.Prelude.{◌≡◌, ◌<◌, IfOk};
ghost use Rattle.refusal.specs.declared.Refusal.TheVariants.{Pivot};
ghost use Rattle.solve_step.specs.Pivot.{better_of, judged_of, pivot_of};

use crate::ranged;
use refusal::Refusal;

// The row to take so far, and the squared magnitude of its entry.
#[derive(Clone, Copy)]
pub struct Best {
    pub row: usize,
    pub size: f64,
}

impl Best {
    // A later row takes over if its size is at least the best so far.
    pub fn against(self, r: usize, z: f64) -> Best
        ensures { result ≡ better_of self r z }
    {
        if z >= self.size {
            Best { row: r, size: z }
        } else {
            self
        }
    }

    pub fn judge(self) -> Result<Best, TooSmall>
        ensures { result ≡ judged_of self }
    {
        if self.size < 1e-24 {
            Err(TooSmall { size: self.size })
        } else {
            Ok(self)
        }
    }
}

// The squared magnitude of a column's greatest entry, where it is too small.
#[derive(Clone, Copy)]
pub struct TooSmall {
    pub size: f64,
}

impl From<TooSmall> for Refusal {
    ghost from_gives = { λ _ r. r ≡ Pivot };

    fn from(_size: TooSmall) -> Refusal {
        Refusal::Pivot
    }
}

// Of column c, from row c on.
pub(crate) fn find_pivot(a: &[f64; 242], c: usize) -> Result<Best, TooSmall>
    requires { c < 11 }
    ensures { (result ≡ pivot_of a.now c) × IfOk result (λ b. b.row < 11) }
{
    let mut b = Best {
        row: c,
        size: ranged::entry(a, c * 11 + c).squared(),
    };
    for r in c + 1..11 {
        let z = ranged::entry(a, r * 11 + c).squared();
        b = b.against(r, z);
    }
    b.judge()
}
