// Theorems about slot phases that came from calls. There is no code here.
#![tactic(auto)]
