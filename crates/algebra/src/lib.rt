// The mathematics that the proofs of the other crates share; no code. Definitions stand in specs/,
// theorems in proofs/.
#![tactic(auto)]
