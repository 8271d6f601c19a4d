// No code: the statements of the three demands stand in specs/ and proofs/.
#![tactic(auto)]
