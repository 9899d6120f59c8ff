// Why a symbol is refused, as far as that is known without its slot: in the order of document 01's table. A feed makes the same tests.
ghost use Rattle.std.specs.Prelude.{◌≡◌};
ghost use Rattle.receiver_symbol.specs.Parts.{lent_refusal, next_refusal, state_refusal, soon_refusal};

use receiver::Receiver;
use refusal::Refusal;

// What is lent.
pub fn lent(
    acc: usize,
    store: usize,
    soft: usize,
    f: &[i8; 48],
    s: &[i8; 48],
    table: usize,
) -> Result<(), Refusal>
    ensures { result ≡ lent_refusal acc store soft f.now s.now table }
{
    if !((acc == 9296) & (store == 18592) & (44880 <= soft)) {
        return Err(Refusal::Stores);
    }
    if !(sync_corr::plain::ones(f) & sync_corr::plain::ones(s)) {
        return Err(Refusal::Words);
    }
    if table != 1024 {
        return Err(Refusal::Table);
    }
    Ok(())
}

// The next symbol's position.
pub fn next(r: Receiver) -> Result<(), Refusal>
    ensures { result ≡ next_refusal r }
{
    let y = r.front.sync.run;
    if sync::plain::past_end(y.base, y.t) {
        return Err(Refusal::Position);
    }
    Ok(())
}

// A symbol by the state alone.
fn in_state(r: Receiver) -> Result<(), Refusal>
    ensures { result ≡ state_refusal r }
{
    receiver::plain::range_refusal(r)?;
    next(r)
}

// A symbol, as far as that is known without its slot.
pub(crate) fn soon(
    r: Receiver,
    acc: usize,
    store: usize,
    soft: usize,
    f: &[i8; 48],
    s: &[i8; 48],
    table: usize,
) -> Result<(), Refusal>
    ensures { result ≡ soon_refusal r acc store soft f.now s.now table }
{
    lent(acc, store, soft, f, s, table)?;
    in_state(r)
}
