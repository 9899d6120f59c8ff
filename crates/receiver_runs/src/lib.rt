// Short runs of the receiver by its definitions, against traces of the Rust's stages. There is no code here.
#![tactic(auto)]
