// Why a demap is not taken: in the order of document 01's table.
ghost use Rattle.std.specs.Prelude.{◌≡◌};
ghost use Rattle.demap.specs.Answers.{demap_refusal, block_refusal};

use refusal::Refusal;

pub(crate) fn single(bits: usize, len: usize, k: i64, room: usize) -> Result<(), Refusal>
    ensures { result ≡ demap_refusal bits len k room }
{
    if room < bits {
        return Err(Refusal::Stores);
    }
    if bits < 1 {
        return Err(Refusal::Points);
    }
    if 5 < bits {
        return Err(Refusal::Points);
    }
    if len != 2usize << (bits as u32) {
        return Err(Refusal::Points);
    }
    if k < 0 {
        return Err(Refusal::Scale);
    }
    if 16777216 < k {
        return Err(Refusal::Scale);
    }
    Ok(())
}

// Of n symbols. n times bits may pass 64 bits, so the room is divided.
pub(crate) fn block(n: usize, bits: usize, len: usize, k: i64, room: usize) -> Result<(), Refusal>
    ensures { result ≡ block_refusal n bits len k room }
{
    if bits == 0 {
        return Err(Refusal::Points);
    }
    if room / bits < n {
        return Err(Refusal::Stores);
    }
    single(bits, len, k, bits)
}
