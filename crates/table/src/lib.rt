// The task table of document 01 as mathematics, its limits, and how its tasks are numbered: definitions and their laws
// (specs/, proofs/), no code. It knows nothing of bits, of images or of the analysis.
#![tactic(auto)]
