// The work cells: the table's row, and behind it what is worked out of it once, so that an evaluation reads it.
use row::{Table, Transaction};

#[derive(Clone, Copy)]
pub(crate) struct Work;

impl Work {
    // A phase and a held-back count for each task as candidate and each place in its transaction.
    pub(crate) const PHASES: usize = Table::CELLS;

    pub(crate) const HELD: usize = Work::PHASES + Table::TASKS * Transaction::TASKS;

    // For the task under analysis: a weight for each mode and task, their sum for each transaction and mode, and for each
    // task as candidate and each mode a held-back sum in two cells, the lower half first.
    pub(crate) const WEIGHTS: usize = Work::HELD + Table::TASKS * Transaction::TASKS;

    pub(crate) const MODE_WEIGHTS: usize = Work::WEIGHTS + Transaction::MODES * Table::TASKS;

    pub(crate) const SUMS: usize = Work::MODE_WEIGHTS + Table::TRANSACTIONS * Transaction::MODES;

    // Links: from each setting, a task as candidate in a mode, to the next that is charged, and from each transaction to the
    // next other one with a rival. One cell behind the last is the end.
    pub(crate) const SETTINGS: usize = Work::SUMS + 2 * (Table::TASKS * Transaction::MODES);

    pub(crate) const OTHERS: usize = Work::SETTINGS + (Table::TASKS * Transaction::MODES + 1);

    pub(crate) const CELLS: usize = Work::OTHERS + (Table::TRANSACTIONS + 1);

    // What one more in the upper half of a held-back sum is worth.
    pub(crate) const HALF: u64 = 1 << 32;
}
