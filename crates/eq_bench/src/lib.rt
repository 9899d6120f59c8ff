// What compare/src/bench_eq.rs measures: a block of symbols through the filter, a training at each of them, and a solve, as C functions.
// They are no entries (docs/DECISIONS.md, F.19).
#![tactic(auto)]

ghost use Rattle.std.specs.Prelude.{◌≡◌, ◌/◌, ◌≤◌, length};
ghost use Rattle.eq_fir.specs.Rows.{Bytes, rows_of};
ghost use Rattle.eq_bench.specs.Blocks.{across_c, filtered, filtered_by, in_byte, in_bytes, filtered_code, filtered_out, solved_of, sums_of, trained_along, trained_c};

use sums::Sums;

#[repr(C)]
#[derive(Clone, Copy)]
pub struct Line {
    pub x: [i16; 22],
}

#[repr(C)]
#[derive(Clone, Copy)]
pub struct Rows {
    pub x: [i16; 96],
}

#[repr(C)]
#[derive(Clone, Copy)]
pub struct CSums {
    pub frame: u32,
    pub count: u32,
    pub r: [i64; 132],
    pub p: [i64; 22],
}

// The refusal is a number, as C is given it.
#[repr(C)]
#[derive(Clone, Copy)]
pub struct CSolved {
    pub refusal: u8,
    pub taps: [i16; 22],
}

impl From<CSums> for Sums {
    ghost from_gives = { λ c s. s ≡ sums_of c };

    fn from(c: CSums) -> Sums {
        let r = c.r;
        let p = c.p;
        Sums {
            frame: c.frame,
            count: c.count,
            r,
            p,
        }
    }
}

impl From<Sums> for CSums {
    ghost from_gives = { λ s c. c ≡ across_c s };

    fn from(s: Sums) -> CSums {
        let r = s.r;
        let p = s.p;
        CSums {
            frame: s.frame,
            count: s.count,
            r,
            p,
        }
    }
}

// Each symbol of ys through the line; its output into out. The rows come by a reference (docs/BENCHMARKS.md).
fn filter_all(rows: &[i16; 96], line: &mut [i16; 22], ys: &[i16], out: &mut [i16])
    requires { Bytes rows.now × (length line.old ≡ 22) × (length ys.now ≤ length out.old) }
    ensures { filtered line.new out.new ≡ filtered_by rows.now ys.now (length ys.now / 2) (filtered line.old out.old) }
{
    let m = ys.len() / 2;
    for k in 0..m {
        eq_fir::ranged::shift(line, ys[2 * k], ys[2 * k + 1]);
        let z = eq_fir::ranged_rows::output(rows, line);
        out[2 * k] = z.i;
        out[2 * k + 1] = z.q;
    }
}

// The rows of taps.
#[unsafe(no_mangle)]
pub extern "C" fn measure_rows(taps: Line) -> Rows
    ensures { result.x ≡ rows_of taps.x }
{
    Rows {
        x: eq_fir::ranged_rows::rows(&taps.x),
    }
}

fn in_byte(v: i16) -> bool
    ensures { result ≡ in_byte v }
{
    (-255 <= v) & (v <= 255)
}

fn all_in_byte(rows: &[i16; 96]) -> bool
    ensures { result ≡ in_bytes rows.now }
{
    rows.iter().all(|v| in_byte(*v))
}

// The symbols of ys through an empty line with the rows of taps, into out: 1; 0 and nothing done where the rows are none, or out is shorter.
// Numbers, as C is given them.
#[unsafe(no_mangle)]
pub extern "C" fn measure_filter(rows: &[i16; 96], ys: &[i16], out: &mut [i16]) -> u8
    ensures { (result ≡ filtered_code rows.now ys.now out.old) × (out.new ≡ filtered_out rows.now ys.now out.old) }
{
    let mut line = [0i16; 22];
    if all_in_byte(rows) & (ys.len() <= out.len()) {
        filter_all(rows, &mut line, ys, out);
        1
    } else {
        0
    }
}

// A solve.
#[unsafe(no_mangle)]
pub extern "C" fn measure_solve(c: CSums) -> CSolved
    ensures { result ≡ solved_of c }
{
    match solve::solve_sums(Sums::from(c)) {
        Ok(taps) => CSolved { refusal: 0, taps },
        Err(why) => CSolved {
            refusal: why.number(),
            taps: [0i16; 22],
        },
    }
}

// A training on the line after each symbol of ys, with one reference.
fn train_all(ys: &[i16], di: i16, dq: i16) -> Sums
    requires { length ys.now / 2 ≤ 4194304 }
    ensures { result ≡ trained_along ys.now di dq (length ys.now / 2) }
{
    let m = ys.len() / 2;
    let mut line = [0i16; 22];
    let mut s = sums::new(0);
    for k in 0..m {
        eq_fir::ranged::shift(&mut line, ys[2 * k], ys[2 * k + 1]);
        s = eq_train::ranged::train(s, &line, di, dq);
    }
    s
}

// The same for C; of more symbols than there may be trainings, none.
#[unsafe(no_mangle)]
pub extern "C" fn measure_train(ys: &[i16], di: i16, dq: i16) -> CSums
    ensures { result ≡ trained_c ys.now di dq }
{
    if ys.len() / 2 <= 4194304 {
        CSums::from(train_all(ys, di, dq))
    } else {
        CSums::from(sums::new(0))
    }
}
