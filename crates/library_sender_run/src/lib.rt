// The laws of a sender in lent memory, over every list of exported calls. There is no code.
#![tactic(auto)]
