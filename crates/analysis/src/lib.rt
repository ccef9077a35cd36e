// The bound of document 01 and its walk: definitions (specs/) and what is proved of them (proofs/), no code. It stands on the
// mathematical table and on the laws of periods, and knows no image and no run.
#![tactic(auto)]
