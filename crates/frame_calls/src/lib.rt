// What calls of an alignment come to, from what it received alone: specs/, proofs/Theorems.antt. There is no code here.
#![tactic(auto)]
