// A receiver's parts told as numbers and replaced by numbers, for the replay program: what no call of the receiver shows or leaves.
#![tactic(auto)]

mod put;
mod told;
mod with;

ghost use Rattle.std.specs.Prelude.{◌≡◌};
ghost use Rattle.receiver_state.specs.Turns.{turn_of};

use receiver::Receiver;

#[derive(Clone, Copy)]
pub struct Turned {
    pub receiver: Receiver,
    pub told: [u64; 24],
}

// Call n, an even one: a part is told. An odd one: it is replaced first.
pub fn turn(n: u64, r: Receiver, p: &[u64; 24]) -> Turned
    ensures { result ≡ turn_of n p.now r }
{
    let q = put::part(n, r, p);
    Turned {
        receiver: q,
        told: told::part(n / 2, q, p),
    }
}
