// Laws only: trees of values, as what is read and printed (specs/Laying.antt, proofs/).
#![tactic(auto)]
