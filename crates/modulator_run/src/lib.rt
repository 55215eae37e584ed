// The sender over whole runs: the rules of document 01 as a function of all calls since a fresh start, in specs/, and what is proved of them and of the record, in proofs/. No code.
#![tactic(auto)]
