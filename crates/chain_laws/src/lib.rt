// No code: the laws of a chain stand in proofs/: what is read and what a text says, the rules and the tests, and the round trip.
#![tactic(auto)]
