// The joint invariant of a slot sync that came from calls, and that calls keep it: specs/, proofs/Theorems.antt. There is no code here.
#![tactic(auto)]
