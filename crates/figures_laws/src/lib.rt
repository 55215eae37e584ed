// What follows for a month of recordings: any order of them, and reports merged in any order and grouping. No code.
#![tactic(auto)]
