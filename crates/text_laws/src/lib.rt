// What follows from the definitions of crates/text stands in specs/, with its proof.
#![tactic(auto)]
