// No code: what is true of BED's definitions and of no one function stands in proofs/.
#![tactic(auto)]
