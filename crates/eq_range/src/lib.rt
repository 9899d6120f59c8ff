// The joint invariant of an equaliser that came from calls, that calls keep it, and what closed sums hold: specs/, proofs/Theorems.antt. There
// is no code here.
#![tactic(auto)]
