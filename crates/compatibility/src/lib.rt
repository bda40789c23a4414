// Demand 3 as a theorem over the definitions: see specs/ for what it says and proofs/ for why it holds.
#![tactic(auto)]
