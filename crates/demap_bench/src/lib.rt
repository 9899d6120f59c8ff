// What compare/src/bench_demap.rs measures: a block of symbols through the demapper, as a C function. It is no entry (docs/DECISIONS.md, F.19).
#![tactic(auto)]

ghost use Rattle.std.specs.Prelude.{◌≡◌, ◌/◌, length};
ghost use Rattle.refusal.specs.Refusals.{code_of};
ghost use Rattle.demap.specs.Answers.{block_refusal, block_buffer};

// It answers a number, as C is given it.
#[unsafe(no_mangle)]
pub extern "C" fn measure_demap(
    sy: &[i16],
    points: &[i16],
    bits: usize,
    k: i64,
    out: &mut [i8],
) -> u8
    ensures { (result ≡ code_of (block_refusal (length sy.now / 2) bits (length points.now) k (length out.old))) × (out.new ≡ block_buffer sy.now points.now bits k out.old) }
{
    refusal::code(&demap::demap_block(sy, points, bits, k, out))
}
