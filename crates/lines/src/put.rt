// Text and numbers at a place of a lent buffer. Each answers the place behind what it wrote.
ghost use Rattle.std.specs.Prelude.{◌≡◌, ◌∷◌, [], ◌+◌, ◌*◌, ◌<◌, ◌≤◌, length, drop};
ghost use Rattle.lines.specs.Decimal.{decimal_of};
ghost use Rattle.lines.specs.Place.{Wrote};
ghost use Rattle.lines.specs.Lines.{number_then, value_text, values_text};

pub(crate) fn text(out: &mut [u8], at: usize, t: &[u8]) -> usize
    requires { at + length t.now ≤ length out.old }
    ensures { Wrote out.old at t.now out.new result }
{
    let end = at + t.len();
    out[at..end].copy_from_slice(t);
    end
}

pub(crate) fn byte(out: &mut [u8], at: usize, b: u8) -> usize
    requires { at + 1 ≤ length out.old }
    ensures { Wrote out.old at (b ∷ []) out.new result }
{
    out[at] = b;
    at + 1
}

// Puts the digits of n at the end of out, and answers the place of the first. The loop goes on as long as digits are left, and counts nothing.
fn decimal(n: u64, out: &mut [u8; 20]) -> usize
    ensures { (result < 20) × (drop result out.new ≡ decimal_of n) }
{
    let mut i: usize = 19;
    let mut rest = n / 10;
    out[19] = b'0' + (n % 10) as u8;
    // As long as digits are left: no index is counted.
    while 0 < rest {
        i -= 1;
        out[i] = b'0' + (rest % 10) as u8;
        rest /= 10;
    }
    i
}

pub(crate) fn number(out: &mut [u8], at: usize, n: u64) -> usize
    requires { at + 20 ≤ length out.old }
    ensures { (Wrote out.old at (decimal_of n) out.new result) × (result ≤ at + 20) }
{
    let mut digits = [0; 20];
    let k = decimal(n, &mut digits);
    text(out, at, &digits[k..])
}

// A number and the byte behind it.
pub(crate) fn number_then(out: &mut [u8], at: usize, n: u64, b: u8) -> usize
    requires { at + 21 ≤ length out.old }
    ensures { (Wrote out.old at (number_then n b) out.new result) × (result ≤ at + 21) }
{
    let a = number(out, at, n);
    byte(out, a, b)
}

// A blank and a value.
pub(crate) fn value(out: &mut [u8], at: usize, v: i8) -> usize
    requires { at + 22 ≤ length out.old }
    ensures { (Wrote out.old at (value_text v) out.new result) × (result ≤ at + 22) }
{
    let n = u64::from(v.unsigned_abs());
    let a = byte(out, at, b' ');
    if v < 0 {
        let b = byte(out, a, b'-');
        number(out, b, n)
    } else {
        number(out, a, n)
    }
}

// Values, and the line's end.
pub(crate) fn values(out: &mut [u8], at: usize, values: &[i8]) -> usize
    requires { at + 22 * length values.now + 1 ≤ length out.old }
    ensures { Wrote out.old at (values_text values.now) out.new result }
{
    let mut to = at;
    for v in values {
        to = value(out, to, *v);
    }
    byte(out, to, b'\n')
}
