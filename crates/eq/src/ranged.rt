// For the entries and the receiver, which prove the ranges.
ghost use Rattle.std.specs.Prelude.{◌≡◌};
ghost use Rattle.eq.specs.Eq.{trained_eq};
ghost use Rattle.eq.specs.Ranges.{TrainOk};

use crate::Equaliser;

// A training symbol: ignored where the line is short or no sums are open.
pub fn trained(e: Equaliser, di: i16, dq: i16) -> Equaliser
    requires { TrainOk e }
    ensures { result ≡ trained_eq e di dq }
{
    if e.opened & (11 <= e.filled) {
        crate::plain::with_sums(e, true, eq_train::ranged::train(e.sums, &e.line, di, dq))
    } else {
        e
    }
}
