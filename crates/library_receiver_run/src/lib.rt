// The receiver's exports over whole lists of calls on one memory: theorems only.
#![tactic(auto)]
