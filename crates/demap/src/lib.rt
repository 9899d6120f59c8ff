// The max-log demapper, after chain/demap.rs: the soft bits of a symbol, most significant first. Points are lent, as pairs in the order of
// their labels, I before Q.
#![tactic(auto)]

mod levels;
pub mod ranged;
mod refusals;
mod table;

ghost use Rattle.std.specs.Prelude.{◌≡◌, ◌/◌, length};
ghost use Rattle.demap.specs.Demap.{metric_of};
ghost use Rattle.demap.specs.Answers.{demap_answer, demap_buffer, block_refusal, block_buffer, scale_answer};

use refusal::Refusal;

// The squared distance of a symbol to a point, less |y|^2.
pub fn metric(yi: i16, yq: i16, pi: i16, pq: i16) -> i64
    ensures { result ≡ metric_of yi yq pi pq }
{
    table::by_twice(2 * (yi as i64), 2 * (yq as i64), pi, pq)
}

// The soft bits of a symbol into out, from its start.
pub fn demap(
    yi: i16,
    yq: i16,
    points: &[i16],
    bits: usize,
    k: i64,
    out: &mut [i8],
) -> Result<i64, Refusal>
    ensures { (result ≡ demap_answer yi yq points.now bits k out.old) × (out.new ≡ demap_buffer yi yq points.now bits k out.old) }
{
    refusals::single(bits, points.len(), k, out.len())?;
    Ok(ranged::one(yi, yq, points, bits, k, out))
}

// The soft bits of each symbol of a slice.
pub fn demap_block(
    sy: &[i16],
    points: &[i16],
    bits: usize,
    k: i64,
    out: &mut [i8],
) -> Result<(), Refusal>
    ensures { (result ≡ block_refusal (length sy.now / 2) bits (length points.now) k (length out.old)) × (out.new ≡ block_buffer sy.now points.now bits k out.old) }
{
    refusals::block(sy.len() / 2, bits, points.len(), k, out.len())?;
    ranged::block(sy, points, bits, k, out);
    Ok(())
}

// The scale of noise n0.
pub fn scale_of(n0: i64) -> Result<i64, Refusal>
    ensures { result ≡ scale_answer n0 }
{
    if fx::plain::wide(n0) {
        Err(Refusal::Arithmetic)
    } else {
        Ok(ranged::scale(n0))
    }
}
