// Writing to standard output. The handle keeps whether every write so far was taken, and why one was not: behind a write that failed
// nothing is written, and each writer says why, to the program's end.
#![tactic(auto)]

mod handle;
mod numbers;
mod sheet;

pub use handle::Out;
pub use numbers::Grouped;
pub use sheet::{SHEET, Sheet};
