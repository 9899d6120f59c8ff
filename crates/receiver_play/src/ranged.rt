// For the program, which gives no more symbols than a call has.
ghost use Rattle.std.specs.Prelude.{◌≡◌, ◌≤◌, ◌<◌};
ghost use Rattle.receiver.specs.Answers.{symbol_answer, symbol_lent};
ghost use Rattle.receiver.specs.Feed.{input_at};
ghost use Rattle.receiver_play.specs.Play.{block, lent_of, play_from};

use crate::{Played, refused_at, still, taken_at};
use receiver::{Answer, Receiver};
use refusal::Refused;

// Symbol i of the block. Not inlined, as `leave`.
#[inline(never)]
fn one(
    r: Receiver,
    i: usize,
    x: &[i8; 144],
    f: [i8; 48],
    s: [i8; 48],
    table: &[i16],
    acc: &mut [u32],
    store: &mut [i16],
    soft: &mut [i8],
) -> Result<Answer, Refused<Receiver>>
    requires { i < 72 }
    ensures { (result ≡ symbol_answer r (input_at (block x.now f s table.now) i) (lent_of acc.old store.old soft.old))
        × (lent_of acc.new store.new soft.new ≡ symbol_lent r (input_at (block x.now f s table.now) i) (lent_of acc.old store.old soft.old)) }
{
    receiver_symbol::symbol(r, x[2 * i], x[2 * i + 1], f, s, table, acc, store, soft)
}

// The receiver that an answer leaves, put in the place of q. Not inlined, since the compiler would then move each number of the receiver by itself.
#[inline(never)]
fn leave(a: &Answer, q: &mut Receiver)
    ensures { q.new ≡ a.now.receiver }
{
    *q = a.receiver;
}

// The first n symbols of the block, or as many as are quiet and one more.
pub fn play(
    r: Receiver,
    n: usize,
    x: &[i8; 144],
    f: [i8; 48],
    s: [i8; 48],
    table: &[i16],
    acc: &mut [u32],
    store: &mut [i16],
    soft: &mut [i8],
) -> Played
    requires { n ≤ 72 }
    ensures { (result ≡ (play_from (block x.now f s table.now) n 0 r (lent_of acc.old store.old soft.old)).told)
        × (lent_of acc.new store.new soft.new ≡ (play_from (block x.now f s table.now) n 0 r (lent_of acc.old store.old soft.old)).lent) }
{
    let mut q = r;
    for i in 0..n {
        match &one(q, i, x, f, s, table, acc, store, soft) {
            Ok(a) => {
                if receiver::told::tells(*a) {
                    return taken_at(*a, i + 1);
                }
                leave(a, &mut q);
            }
            Err(refused) => {
                return refused_at(*refused, i);
            }
        }
    }
    still(q, n)
}
