// Reading and writing undo each other: the image of a table says that table, is refused where the table is and accepted where
// it is, and a row holds a table that can be written. Laws (proofs/), no code. It knows the image and the row.
#![tactic(auto)]
