// Document 01's starred examples, as one theorem: specs/Worked.antt has the list, proofs/Theorems.antt the proof. There is no code here.
#![tactic(auto)]
