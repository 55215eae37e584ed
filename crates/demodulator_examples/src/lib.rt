// Samples that meet what the receiver's theorems ask, in proofs/, computed from the samples alone. No code.
#![tactic(auto)]
