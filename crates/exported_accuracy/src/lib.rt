// Demand 3, and what one bad sample can do, for the exported calls over words; no code.
#![tactic(auto)]
