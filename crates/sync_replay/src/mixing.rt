// A digest of all answers: it goes on from one answer to the next.
ghost use Rattle.std.specs.Prelude.{◌≡◌, length};
ghost use Rattle.sync_replay.specs.Mixing.{mixed_to};

// The digest with forty more numbers.
pub(crate) fn mixed_all(d: u64, n: &[u64; 40]) -> u64
    ensures { result ≡ mixed_to d n.now 40 }
{
    let mut r = d;
    for &v in n {
        r = digest::mixed(r, v);
    }
    r
}

// The digest with all accumulators.
pub(crate) fn mixed_store(d: u64, acc: &[u32]) -> u64
    ensures { result ≡ mixed_to d acc.now (length acc.now) }
{
    let mut r = d;
    for &v in acc {
        r = digest::mixed(r, u64::from(v));
    }
    r
}
