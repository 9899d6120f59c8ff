// What a list of pushed symbols comes to, said of the symbols and words alone (specs/), and that the slot sync tells exactly that (proofs/). There
// is no code here.
#![tactic(auto)]
