// No code: the laws of PSL that its code's proofs don't need stand in proofs/.
#![tactic(auto)]
