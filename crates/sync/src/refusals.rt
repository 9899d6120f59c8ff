// Why a symbol or a restart is not taken: in the order of document 01's table. Both tests begin and go on alike, but
// the words are tested between, and the table's order may not change (`push_refusal`, `restart_refusal`): a shared part would be no plainer.
#![tactic(auto, using(laws::specs::Choice::cases), unfolding(crate::specs::Answers::push_refusal, crate::specs::Answers::restart_refusal))]

ghost use Rattle.std.specs.Prelude.{◌≡◌};
ghost use Rattle.sync.specs.Answers.{push_refusal, restart_refusal};

use crate::plain;
use refusal::Refusal;
use sync_step::Run;

pub(crate) fn push_refusal(len: usize, f: &[i8; 48], w: &[i8; 48], r: Run) -> Result<(), Refusal>
    ensures { result ≡ push_refusal len f.now w.now r }
{
    if len != 9296 {
        return Err(Refusal::Stores);
    }
    if !(sync_corr::plain::ones(f) & sync_corr::plain::ones(w)) {
        return Err(Refusal::Words);
    }
    if !sync_step::plain::in_range(r) {
        return Err(Refusal::Arithmetic);
    }
    if plain::past_end(r.base, r.t) {
        return Err(Refusal::Position);
    }
    Ok(())
}

pub(crate) fn restart_refusal(len: usize, at: u64, r: Run) -> Result<(), Refusal>
    ensures { result ≡ restart_refusal len at r }
{
    if len != 9296 {
        return Err(Refusal::Stores);
    }
    if !sync_step::plain::in_range(r) {
        return Err(Refusal::Arithmetic);
    }
    if plain::before(at, r.base, r.t) {
        return Err(Refusal::Position);
    }
    Ok(())
}
