// Demand 3: how far what is reported may lie from the exact values; no code.
#![tactic(auto)]
