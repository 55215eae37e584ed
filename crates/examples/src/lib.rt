// Document 01's worked sums, P1 to P12, under one statement: proofs/Examples.antt. No code.
#![tactic(auto)]
