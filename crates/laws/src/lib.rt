// Laws of the definitions, which every crate above may cite: see proofs/.
#![tactic(auto)]
