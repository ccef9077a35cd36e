// The image of document 01: where each field of it stands, the table that it says, its first fault, and the image of a
// table. Definitions and their laws (specs/, proofs/), no code. It knows bits and the table's rules.
#![tactic(auto)]
