// The blocks worked by hand of document 01 as the requests amend them, P1 to P10, and its boundary values: one table of
// cases, computed from the definitions that the contracts of coder, front and decoder cite (specs/Blocks.antt). It sees
// those definitions and runs nothing.
#![tactic(auto)]
