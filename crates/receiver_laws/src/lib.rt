// What the receiver's definitions come to, for its code and for the guarantee. There is no code here.
#![tactic(auto)]
