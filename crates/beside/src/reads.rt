// The fields of a row whose table has one task in each transaction: that of transaction i has the number i.
ghost use Rattle.std.specs.Prelude.{◌≡◌, ◌+◌, ◌<◌, get_or};
ghost use Rattle.row.specs.Row.{table_of, task_cells, task_cell};
ghost use Rattle.table.specs.Table.{transactions, period, jitter, blocking, priority, time};
ghost use Rattle.beside.specs.Lent.{SingleRow};
ghost use Rattle.beside.specs.Proposition.{SingleRow-prop};

use row::{Table, Task, Transaction};

// A task of such a row, by its number.
#[derive(Clone, Copy)]
pub(crate) struct Alone<'a> {
    pub(crate) row: &'a [u32; Table::CELLS],
    pub(crate) u: usize,
    ghost single_row: { SingleRow row.now } by { SingleRow-prop row.now },
    ghost owner: { u < transactions (table_of row.now) },
}

impl Alone<'_> {
    pub(crate) fn frame(&self) -> u32
        ensures { result ≡ (table_of self.now.row.now).frame }
    {
        let row = self.row;
        Table::frame(row)
    }

    pub(crate) fn transactions(&self) -> usize
        ensures { result ≡ transactions (table_of self.now.row.now) }
    {
        let row = self.row;
        Table::transactions(row) as usize
    }

    pub(crate) fn period(&self) -> u32
        ensures { result ≡ period (table_of self.now.row.now) self.now.u }
    {
        self.row[Table::HEADER_CELLS + self.u * Transaction::CELLS + Transaction::PERIOD_CELL]
    }

    fn cell(&self, at: usize) -> u32
        requires { at < task_cells }
        ensures { result ≡ get_or self.now.row.now (task_cell self.now.u + at) 0 }
    {
        self.row[Table::TASKS_CELL + self.u * Task::CELLS + at]
    }

    pub(crate) fn jitter(&self) -> u32
        ensures { result ≡ jitter (table_of self.now.row.now) self.now.u 0 }
    {
        self.cell(Task::JITTER_CELL)
    }

    pub(crate) fn blocking(&self) -> u32
        ensures { result ≡ blocking (table_of self.now.row.now) self.now.u 0 }
    {
        self.cell(Task::BLOCKING_CELL)
    }

    pub(crate) fn priority(&self) -> u32
        ensures { result ≡ priority (table_of self.now.row.now) self.now.u 0 }
    {
        self.cell(Task::PRIORITY_CELL)
    }

    pub(crate) fn time(&self) -> u32
        ensures { result ≡ time (table_of self.now.row.now) self.now.u 0 0 }
    {
        self.cell(Task::TIMES_CELL)
    }
}
