// A symbol of a receiver, and stores, of which all is known but what its slot gives: for callers that have tested them.
ghost use Rattle.std.specs.Prelude.{◌≡◌, length};
ghost use Rattle.receiver.specs.Answers.{symbol_answer, symbol_lent};
ghost use Rattle.receiver_symbol.specs.Parts.{Soon};

use crate::{looks, slots};
use receiver::{Answer, Receiver};
use refusal::Refused;

pub fn known(
    r: Receiver,
    xi: i8,
    xq: i8,
    f: &[i8; 48],
    s: &[i8; 48],
    table: &[i16],
    acc: &mut [u32],
    store: &mut [i16],
    soft: &mut [i8],
) -> Result<Answer, Refused<Receiver>>
    requires { Soon r (length acc.old) (length store.old) (length soft.old) f.now s.now (length table.now) }
    ensures { (result ≡ symbol_answer r (record { xi = xi; xq = xq; f = f.now; s = s.now; table = table.now }) (record { acc = acc.old; store = store.old; soft = soft.old })) × (acc.new ≡ (symbol_lent r (record { xi = xi; xq = xq; f = f.now; s = s.now; table = table.now }) (record { acc = acc.old; store = store.old; soft = soft.old })).acc) × (store.new ≡ (symbol_lent r (record { xi = xi; xq = xq; f = f.now; s = s.now; table = table.now }) (record { acc = acc.old; store = store.old; soft = soft.old })).store) × (soft.new ≡ (symbol_lent r (record { xi = xi; xq = xq; f = f.now; s = s.now; table = table.now }) (record { acc = acc.old; store = store.old; soft = soft.old })).soft) }
{
    let y = r.front.sync.run;
    let p = sync_step::plain::place(y.t);
    let a = looks::look(r, xi, xq, f, s, table, acc[p]);
    slots::go_on(r, a, p, f, s, table, acc, store, soft)
}
