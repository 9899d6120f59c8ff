// The sums that are taken.
ghost use Rattle.std.specs.Prelude.{◌≡◌};
ghost use Rattle.solve.specs.Answers.{wide, any_wide, outside_of};

use sums::Sums;

// Of size over 2^53.
fn wide(v: i64) -> bool
    ensures { result ≡ wide v }
{
    (v < -9007199254740992) | (9007199254740992 < v)
}

fn any_wide(l: &[i64]) -> bool
    ensures { result ≡ any_wide l.now }
{
    l.iter().any(|v| wide(*v))
}

pub(crate) fn outside(s: Sums) -> bool
    ensures { result ≡ outside_of s }
{
    (s.count == 0) | (4194304 < s.count) | any_wide(&s.r) | any_wide(&s.p)
}
