// The legal runs of document 01, and demand 3: definitions (specs/) and what is proved of them (proofs/), no code. A run knows
// no bound: that a bound holds in it is what is proved, of the bound of crate analysis.
#![tactic(auto)]
