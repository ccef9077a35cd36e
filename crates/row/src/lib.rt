// The table in code: its types with their limits, the row in which a table is lent, and how the row is read. It knows the
// table's fields; it knows nothing of bits, of images or of the analysis.
#![tactic(auto)]

mod kinds;
mod view;

pub use kinds::{Table, Task, Transaction};
