// What happened in the slot sync, said of the received symbols alone (specs/), and theorems about it (proofs/). There is no code here.
#![tactic(auto)]
