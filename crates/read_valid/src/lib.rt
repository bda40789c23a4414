// What is read is valid, where each refusal points, and that each has a name, as theorems over the definitions: see specs/ for what they
// say and proofs/ for why they hold.
#![tactic(auto)]
