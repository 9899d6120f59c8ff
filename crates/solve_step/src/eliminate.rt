// The elimination, column by column, up to a pivot that is too small.
ghost use Rattle.std.specs.Prelude.{◌≡◌};
ghost use Rattle.solve_step.specs.Eliminate.{reduce_from};

use crate::{System, pivot, rows};
use refusal::Refusal;

pub(crate) fn eliminate(s: System) -> Result<System, Refusal>
    ensures { result ≡ reduce_from s 0 11 }
{
    let mut a = s.a;
    let mut b = s.b;
    for c in 0..11 {
        let best = pivot::find_pivot(&a, c)?;
        rows::eliminate_column(&mut a, &mut b, c, best.row);
    }
    Ok(System { a, b })
}
