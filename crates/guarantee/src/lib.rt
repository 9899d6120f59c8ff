// Demand 3 of the order, as one theorem about every list of a receiver's calls: specs/ states it on what was received, proofs/ proves it. There is
// no code here.
#![tactic(auto)]
