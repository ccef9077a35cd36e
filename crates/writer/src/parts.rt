// The parts of a row by the bit position where each would start in the image: a transaction, its tasks, and a task.
ghost use Rattle.std.specs.Prelude.{◌≡◌, ◌+◌, ◌*◌, ◌^◌, ◌<◌, ◌≤◌};
ghost use Rattle.table.specs.Sum.{greatest};
ghost use Rattle.table.specs.Limits.{transactions_most, modes_most, tasks_most, tasks_in_all};
ghost use Rattle.row.specs.Row.{modes_cell, has_cell, head_cell, time_cell};
ghost use Rattle.format.specs.Places.{head_width, task_width, time_at};

use row::{Table, Task, Transaction};

// A transaction of a row: its number, how many tasks stand before it, and where it would start.
#[derive(Clone, Copy)]
pub(crate) struct TransactionAt<'a> {
    pub row: &'a [u32],
    pub number: usize,
    pub before: usize,
    pub at: usize,
    ghost number_bound: { number < transactions_most },
    ghost before_bound: { before ≤ tasks_in_all },
    ghost at_bound: { at < 2 ^ 30 },
}

impl<'a> TransactionAt<'a> {
    // Its tasks, where its counts are accepted.
    pub(crate) fn tasks(self) -> Tasks<'a>
        requires modes_cell_bound { head_cell self.row.now self.number modes_cell ≤ modes_most }
        requires has_cell_bound { head_cell self.row.now self.number has_cell ≤ tasks_most }
        requires in_all_bound { self.before + head_cell self.row.now self.number has_cell ≤ tasks_in_all }
        ensures row_value { result.row ≡ self.entry.row }
        ensures first_value { result.first ≡ self.entry.before }
        ensures count_value { result.count ≡ head_cell self.entry.row.now self.entry.number has_cell }
        ensures modes_value { result.modes ≡ head_cell self.entry.row.now self.entry.number modes_cell }
        ensures at_value { result.at ≡ self.entry.at + head_width }
    {
        Tasks {
            row: self.row,
            first: self.before,
            count: Table::tasks(self.row, self.number) as usize,
            modes: Table::modes(self.row, self.number) as usize,
            at: self.at + Transaction::WIDTH,
        }
    }
}

// The tasks of a transaction: the number of the first, how many there are, how many modes each has, and where the first would start.
#[derive(Clone, Copy)]
pub(crate) struct Tasks<'a> {
    pub row: &'a [u32],
    pub first: usize,
    pub count: usize,
    pub modes: usize,
    pub at: usize,
    ghost count_bound: { count ≤ tasks_most },
    ghost in_all_bound: { first + count ≤ tasks_in_all },
    ghost modes_bound: { modes ≤ modes_most },
    ghost at_bound: { at < 2 ^ 31 },
}

impl<'a> Tasks<'a> {
    // Its task number j.
    pub(crate) fn task(self, j: usize) -> TaskAt<'a>
        requires { j < self.count }
        ensures row_value { result.row ≡ self.entry.row }
        ensures number_value { result.number ≡ self.entry.first + j }
        ensures modes_value { result.modes ≡ self.entry.modes }
        ensures at_value { result.at ≡ self.entry.at + j * task_width self.entry.modes }
    {
        TaskAt {
            row: self.row,
            number: self.first + j,
            modes: self.modes,
            at: self.at + j * self.width(),
        }
    }

    // Where they would end.
    pub(crate) fn end(self) -> usize
        ensures { result ≡ self.entry.at + self.entry.count * task_width self.entry.modes }
    {
        self.at + self.count * self.width()
    }

    // The bits of each.
    fn width(self) -> usize
        ensures { result ≡ task_width self.entry.modes }
    {
        Task::TIMES_AT + self.modes * Task::TIME_WIDTH
    }
}

// A task of a row: its number, how many modes it has, and where it would start.
#[derive(Clone, Copy)]
pub(crate) struct TaskAt<'a> {
    pub row: &'a [u32],
    pub number: usize,
    pub modes: usize,
    pub at: usize,
    ghost number_bound: { number < tasks_in_all },
    ghost modes_bound: { modes ≤ modes_most },
    ghost at_bound: { at < 2 ^ 32 },
}

impl TaskAt<'_> {
    // Where its time in a mode would stand.
    pub(crate) fn time_at(self, m: usize) -> usize
        requires { m < modes_most }
        ensures { result ≡ time_at self.entry.at m }
    {
        self.at + Task::TIMES_AT + m * Task::TIME_WIDTH
    }

    pub(crate) fn time(self, m: usize) -> u32
        ensures { result ≡ time_cell self.entry.row.now self.entry.number m }
    {
        Table::time(self.row, self.number, m)
    }

    pub(crate) fn greatest_time(self) -> u32
        ensures { result ≡ greatest self.entry.modes (time_cell self.entry.row.now self.entry.number) }
    {
        let mut most: u32 = 0;
        for m in 0..self.modes {
            most = most.max(self.time(m));
        }
        most
    }
}
