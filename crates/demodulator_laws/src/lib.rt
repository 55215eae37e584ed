// What follows from the receiver's calls, one by one: an accepted call leaves a fit record fit; and instances that meet what the receiver's laws ask. No code.
#![tactic(auto)]
