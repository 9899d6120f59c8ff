// Definitions (specs/) and laws (proofs/) that the other crates cite. There is no code here.
#![tactic(auto)]
