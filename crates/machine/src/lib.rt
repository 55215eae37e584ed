#![tactic(auto)]

// Laws of machines: no code.
