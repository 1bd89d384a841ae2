// No code that runs: document 01's marked samples, one table in specs/ and its proof in proofs/.
#![tactic(auto)]
