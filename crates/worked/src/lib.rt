// Document 01's worked cases, 'Checked by hand': what the definitions give, and what the document says. Definitions and
// one statement, no code.
#![tactic(auto)]
