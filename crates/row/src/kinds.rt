// The table's types. Each limit of document 01 is named once, at the type that it limits; the contracts tie it to the
// definitions' own name for it.
ghost use Rattle.std.specs.Prelude.{◌≡◌};
ghost use Rattle.table.specs.Limits.{horizon, frame_most};
ghost use Rattle.row.specs.Row.{empty_row};

// A table as one flat row, which is lent below as `&[u32; Table::CELLS]`: a header, then the transactions, then the tasks
// in image order. It is flat, and no array of structs: C lends it so, to `sumpcandle_read` and `sumpcandle_write`.
#[derive(Clone, Copy)]
pub struct Table {
    pub cells: [u32; Table::CELLS],
}

impl Table {
    pub const EDITION: u32 = 1;
    // The greatest major frame, and the horizon, in ticks.
    pub const FRAME: u32 = 16_777_215;

    pub const HORIZON: u32 = 16_777_215;

    pub const TRANSACTIONS: usize = 63;

    pub const TASKS: usize = 128;

    pub const EDITION_WIDTH: usize = 4;

    pub const FRAME_WIDTH: usize = 24;

    pub const TRANSACTIONS_WIDTH: usize = 6;

    // Where each field starts in the image, and where the first transaction does.
    pub const FRAME_AT: usize = Table::EDITION_WIDTH;

    pub const COUNT_AT: usize = Table::FRAME_AT + Table::FRAME_WIDTH;

    pub const FIRST_AT: usize = Table::COUNT_AT + Table::TRANSACTIONS_WIDTH;

    // The row: a header of five cells, the last of which is spare, then the transactions' cells and the tasks'.
    pub const EDITION_CELL: usize = 0;

    pub const FRAME_CELL: usize = 1;

    pub const COUNT_CELL: usize = 2;

    pub const IN_ALL_CELL: usize = 3;

    pub const SPARE_CELL: usize = 4;

    pub const HEADER_CELLS: usize = 5;

    pub const TASKS_CELL: usize = Table::HEADER_CELLS + Table::TRANSACTIONS * Transaction::CELLS;

    pub const CELLS: usize = Table::TASKS_CELL + Table::TASKS * Task::CELLS;

    // The empty table.
    #[tactic(auto, unfolding(table::specs::Lists::padded))]
    pub fn empty() -> Table
        ensures { result.cells ≡ empty_row }
    {
        Table {
            cells: [0u32; Table::CELLS],
        }
    }

    pub fn horizon() -> u32
        ensures { result ≡ horizon }
    {
        Table::HORIZON
    }

    pub fn greatest_frame() -> u32
        ensures { result ≡ frame_most }
    {
        Table::FRAME
    }
}

// What stands before the tasks of a transaction.
#[derive(Clone, Copy)]
pub struct Transaction {
    pub period: u32,
    pub modes: usize,
    pub tasks: usize,
}

impl Transaction {
    pub const MODES: usize = 8;

    pub const TASKS: usize = 16;

    pub const PERIOD_WIDTH: usize = 24;

    pub const MODES_WIDTH: usize = 4;

    pub const TASKS_WIDTH: usize = 5;

    // Where each field starts, counted from the transaction's first bit.
    pub const MODES_AT: usize = Transaction::PERIOD_WIDTH;

    pub const TASKS_AT: usize = Transaction::MODES_AT + Transaction::MODES_WIDTH;

    pub const WIDTH: usize = Transaction::TASKS_AT + Transaction::TASKS_WIDTH;

    // Its cells in the row; the third holds the number of its first task, the last is spare.
    pub const PERIOD_CELL: usize = 0;

    pub const MODES_CELL: usize = 1;

    pub const FIRST_CELL: usize = 2;

    pub const TASKS_CELL: usize = 3;

    pub const SPARE_CELL: usize = 4;

    pub const CELLS: usize = 5;

    pub fn new(period: u32, modes: usize, tasks: usize) -> Transaction
        ensures { result ≡ record { period = period; modes = modes; tasks = tasks } }
    {
        Transaction {
            period,
            modes,
            tasks,
        }
    }
}

// What stands before the times of a task.
#[derive(Clone, Copy)]
pub struct Task {
    pub offset: u32,
    pub jitter: u32,
    pub blocking: u32,
    pub deadline: u32,
    pub priority: u32,
}

impl Task {
    pub const OFFSET_WIDTH: usize = 24;

    pub const JITTER_WIDTH: usize = 24;

    pub const BLOCKING_WIDTH: usize = 24;

    pub const DEADLINE_WIDTH: usize = 26;

    pub const PRIORITY_WIDTH: usize = 8;

    pub const TIME_WIDTH: usize = 24;

    // Where each field starts, counted from the task's first bit.
    pub const JITTER_AT: usize = Task::OFFSET_WIDTH;

    pub const BLOCKING_AT: usize = Task::JITTER_AT + Task::JITTER_WIDTH;

    pub const DEADLINE_AT: usize = Task::BLOCKING_AT + Task::BLOCKING_WIDTH;

    pub const PRIORITY_AT: usize = Task::DEADLINE_AT + Task::DEADLINE_WIDTH;

    pub const TIMES_AT: usize = Task::PRIORITY_AT + Task::PRIORITY_WIDTH;

    // Its cells in the row; the sixth holds the number of its transaction, and then comes a time for each mode that
    // there may be.
    pub const OFFSET_CELL: usize = 0;

    pub const JITTER_CELL: usize = 1;

    pub const BLOCKING_CELL: usize = 2;

    pub const DEADLINE_CELL: usize = 3;

    pub const PRIORITY_CELL: usize = 4;

    pub const OWNER_CELL: usize = 5;

    pub const TIMES_CELL: usize = 6;

    pub const CELLS: usize = Task::TIMES_CELL + Transaction::MODES;

    pub fn new(offset: u32, jitter: u32, blocking: u32, deadline: u32, priority: u32) -> Task
        ensures { result ≡ record { offset = offset; jitter = jitter; blocking = blocking; deadline = deadline; priority = priority } }
    {
        Task {
            offset,
            jitter,
            blocking,
            deadline,
            priority,
        }
    }
}
