// The plain jitter analysis of source document 003, and its linear approximation of one task's request: definitions (specs/) and what
// is proved of them (proofs/), no code. It stands on the mathematical table, on the laws of periods and on document 01's analysis,
// beside which it is laid, and knows no image.
#![tactic(auto)]
