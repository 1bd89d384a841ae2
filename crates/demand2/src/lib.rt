// No code that runs: demand 2, its statement in specs/ and its proof in proofs/.
#![tactic(auto)]
