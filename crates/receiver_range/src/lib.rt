// What is true together of the numbers of a receiver that came from calls (specs/), and that every call keeps it (proofs/). There is no code here.
#![tactic(auto)]
