// No code that runs: demand 3, its statement in specs/ and its proof in proofs/.
#![tactic(auto)]
