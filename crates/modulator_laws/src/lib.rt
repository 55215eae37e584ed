// What follows from the sender's calls, whichever record they are given: one answer to each promise, a fit record that stays fit, reads in pieces, and what is told once. Theorems alone, in proofs/. No code.
#![tactic(auto)]
