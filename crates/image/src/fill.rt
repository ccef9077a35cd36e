// The row of an accepted image: a fill that cannot fail, into the cells of a row.
ghost use Rattle.std.specs.Prelude.{◌≡◌, [], ◌∷◌, ◌+◌, ◌*◌, ◌^◌, ◌<◌, ◌≤◌, get_or};
ghost use Rattle.std.proofs.lemmas.List.Edits.{sets};
ghost use Rattle.table.specs.Limits.{modes_most};
ghost use Rattle.table.specs.Lists.{list_of};
ghost use Rattle.format.specs.Said.{count_in, task_in, time_in, tasks_before};
ghost use Rattle.row.specs.Row.{transaction_cells, task_cells, row_cells, of_task};
ghost use Rattle.image.specs.Fill.{of_tasks_in, transactions_over, filled_over};
ghost use Rattle.format.specs.Fault.{IsAccepted};

use super::parts::{TaskAt, TransactionAt};
use row::{Table, Task, Transaction};

// The time of a task in a mode, and in the modes beyond its own 0.
fn time(task: TaskAt, m: usize) -> u32
    ensures { result ≡ get_or (list_of task.entry.modes (time_in task.entry.image.now task.entry.at)) m 0 }
{
    if m < task.modes { task.time(m) } else { 0 }
}

fn put_times(task: TaskAt, cells: &mut [u32; Table::CELLS], cell: usize)
    requires modes_most_bound { cell + modes_most ≤ row_cells }
    ensures { cells.new ≡ sets cells.old cell (list_of modes_most (λ m. get_or (list_of task.entry.modes (time_in task.entry.image.now task.entry.at)) m 0)) }
{
    for m in 0..Transaction::MODES {
        cells[cell + m] = time(task, m);
    }
}

// A task of transaction `owner`.
fn put_task(task: TaskAt, owner: u32, cells: &mut [u32; Table::CELLS], cell: usize)
    requires modes_le_modes_most { task.modes ≤ modes_most }
    requires task_cells_bound { cell + task_cells ≤ row_cells }
    ensures { cells.new ≡ sets cells.old cell (of_task owner (task_in task.entry.image.now task.entry.modes task.entry.at)) }
{
    let body = task.body();
    cells[cell + Task::OFFSET_CELL] = body.offset;
    cells[cell + Task::JITTER_CELL] = body.jitter;
    cells[cell + Task::BLOCKING_CELL] = body.blocking;
    cells[cell + Task::DEADLINE_CELL] = body.deadline;
    cells[cell + Task::PRIORITY_CELL] = body.priority;
    cells[cell + Task::OWNER_CELL] = owner;
    put_times(task, cells, cell + Task::TIMES_CELL);
}

// A transaction but its tasks, the first of which has the number `first`.
fn put_head(t: TransactionAt, first: usize, cells: &mut [u32; Table::CELLS], cell: usize)
    requires first_bound { first < 2 ^ 32 }
    requires transaction_cells_bound { cell + transaction_cells ≤ row_cells }
    ensures { cells.new ≡ sets cells.old cell (t.entry.head.period ∷ t.entry.head.modes ∷ first ∷ t.entry.head.tasks ∷ 0 ∷ []) }
{
    cells[cell + Transaction::PERIOD_CELL] = t.head.period;
    cells[cell + Transaction::MODES_CELL] = t.head.modes as u32;
    cells[cell + Transaction::FIRST_CELL] = first as u32;
    cells[cell + Transaction::TASKS_CELL] = t.head.tasks as u32;
    cells[cell + Transaction::SPARE_CELL] = 0;
}

// The tasks of transaction `owner`.
fn put_tasks(t: TransactionAt, owner: u32, cells: &mut [u32; Table::CELLS], cell: usize)
    requires modes_le_modes_most { t.head.modes ≤ modes_most }
    requires task_cells_bound { cell + t.head.tasks * task_cells ≤ row_cells }
    ensures { cells.new ≡ sets cells.old cell (of_tasks_in t.entry.image.now t.entry.at owner) }
{
    for j in 0..t.head.tasks {
        put_task(t.task(j), owner, cells, cell + j * Task::CELLS);
    }
}

// The transactions, so many, with their tasks. The result is how many tasks there are in all.
fn put_transactions(image: &[u8], count: u32, cells: &mut [u32; Table::CELLS]) -> u32
    requires accepted { IsAccepted image.now }
    requires count_value { count ≡ count_in image.now }
    ensures value { result ≡ tasks_before image.now (count_in image.now) }
    ensures cells_after { cells.new ≡ transactions_over image.now (count_in image.now) cells.old }
{
    let mut before: usize = 0;
    let mut at = Table::FIRST_AT;
    for u in 0..count {
        let t = TransactionAt::new(image, at);
        put_head(
            t,
            before,
            cells,
            Table::HEADER_CELLS + u as usize * Transaction::CELLS,
        );
        put_tasks(t, u, cells, Table::TASKS_CELL + before * Task::CELLS);
        before += t.head.tasks;
        at = t.end();
    }
    before as u32
}

pub(crate) fn fill(image: &[u8], cells: &mut [u32; Table::CELLS])
    requires accepted { IsAccepted image.now }
    ensures { cells.new ≡ filled_over image.now cells.old }
{
    let edition = bits::value(image, 0, Table::EDITION_WIDTH);
    let frame = bits::value(image, Table::FRAME_AT, Table::FRAME_WIDTH);
    let count = bits::value(image, Table::COUNT_AT, Table::TRANSACTIONS_WIDTH);
    let all = put_transactions(image, count, cells);
    cells[Table::EDITION_CELL] = edition;
    cells[Table::FRAME_CELL] = frame;
    cells[Table::COUNT_CELL] = count;
    cells[Table::IN_ALL_CELL] = all;
    cells[Table::SPARE_CELL] = 0;
}
