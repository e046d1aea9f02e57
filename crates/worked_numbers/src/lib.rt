// The worked numbers of document 01 that it marks, the pulse's under A1, the exported calls, the
// margins of demand 3 and the bounds of one bad sample in figures, proved of the definitions that the
// contracts cite; no code.
#![tactic(auto)]
