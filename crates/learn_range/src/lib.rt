// Theorems about what is learned by calls, and about the points in force. There is no code here.
#![tactic(auto)]
