// Document 02 h): silence clears the slate. What a pause is, in specs/, and what is proved of a receiver after one, in proofs/. No code.
#![tactic(auto)]
