// The bits of a table put into a buffer, field by field from front to back. The row is one whose table no rule refuses, so every
// count is small; that there is room is not asked here, what lies past the end of the buffer is lost.
ghost use Rattle.std.specs.Prelude.{◌≡◌};
ghost use Rattle.bits.specs.Put.{bits_put};
ghost use Rattle.table.specs.Lists.{joined};
ghost use Rattle.table.specs.Table.{transactions};
ghost use Rattle.table.specs.Kept.{Kept};
ghost use Rattle.format.specs.Places.{first_at, deadline_at, times_at, bytes_to};
ghost use Rattle.format.specs.Image.{task_bits, transaction_bits, table_bits};
ghost use Rattle.format.specs.Write.{start_of};
ghost use Rattle.row.specs.Row.{task_of, transaction_of, table_of};
ghost use Rattle.writer.specs.Parts.{header_bits, head_bits, front_bits, back_bits, time_bits, task_bits_from};

use super::parts::{TaskAt, Tasks, TransactionAt};
use put::put;
use row::{Table, Task, Transaction};

// The times of a task.
fn lay_times(task: TaskAt, buffer: &mut [u8])
    ensures { buffer.new ≡ bits_put buffer.old (times_at task.entry.at) (joined task.entry.modes (time_bits task.entry.row.now task.entry.number)) }
{
    for m in 0..task.modes {
        put(buffer, task.time_at(m), Task::TIME_WIDTH, task.time(m));
    }
}

// Its offset, jitter and blocking.
fn lay_front(task: TaskAt, buffer: &mut [u8])
    ensures { buffer.new ≡ bits_put buffer.old task.entry.at (front_bits task.entry.row.now task.entry.number) }
{
    let TaskAt {
        row,
        number,
        at,
        ..
    } = task;
    let offset = Table::offset(row, number);
    let jitter = Table::jitter(row, number);
    let blocking = Table::blocking(row, number);
    put(buffer, at, Task::OFFSET_WIDTH, offset);
    put(buffer, at + Task::JITTER_AT, Task::JITTER_WIDTH, jitter);
    put(
        buffer,
        at + Task::BLOCKING_AT,
        Task::BLOCKING_WIDTH,
        blocking,
    );
}

// Its deadline and priority.
fn lay_back(task: TaskAt, buffer: &mut [u8])
    ensures { buffer.new ≡ bits_put buffer.old (deadline_at task.entry.at) (back_bits task.entry.row.now task.entry.number) }
{
    let TaskAt {
        row,
        number,
        at,
        ..
    } = task;
    put(
        buffer,
        at + Task::DEADLINE_AT,
        Task::DEADLINE_WIDTH,
        Table::deadline(row, number),
    );
    put(
        buffer,
        at + Task::PRIORITY_AT,
        Task::PRIORITY_WIDTH,
        Table::priority(row, number),
    );
}

fn lay_task(task: TaskAt, buffer: &mut [u8])
    ensures { buffer.new ≡ bits_put buffer.old task.entry.at (task_bits (task_of task.entry.row.now task.entry.modes task.entry.number)) }
{
    lay_front(task, buffer);
    lay_back(task, buffer);
    lay_times(task, buffer);
}

fn lay_tasks(tasks: Tasks, buffer: &mut [u8])
    ensures { buffer.new ≡ bits_put buffer.old tasks.entry.at (joined tasks.entry.count (task_bits_from tasks.entry.row.now tasks.entry.modes tasks.entry.first)) }
{
    for j in 0..tasks.count {
        lay_task(tasks.task(j), buffer);
    }
}

// What stands before the tasks of a transaction.
fn lay_head(t: TransactionAt, buffer: &mut [u8])
    ensures { buffer.new ≡ bits_put buffer.old t.entry.at (head_bits t.entry.row.now t.entry.number) }
{
    let TransactionAt {
        row,
        number,
        at,
        ..
    } = t;
    put(
        buffer,
        at,
        Transaction::PERIOD_WIDTH,
        Table::period(row, number),
    );
    put(
        buffer,
        at + Transaction::MODES_AT,
        Transaction::MODES_WIDTH,
        Table::modes(row, number),
    );
    put(
        buffer,
        at + Transaction::TASKS_AT,
        Transaction::TASKS_WIDTH,
        Table::tasks(row, number),
    );
}

// How many bytes the image has.
pub(crate) fn size(row: &[u32]) -> usize
    requires { Kept (table_of row.now) }
    ensures { result ≡ bytes_to (start_of (table_of row.now) (transactions (table_of row.now))) }
{
    let count = Table::transactions(row);
    let mut before: usize = 0;
    let mut at = Table::FIRST_AT;
    for u in 0..count as usize {
        let t = TransactionAt {
            row,
            number: u,
            before,
            at,
        };
        let tasks = t.tasks();
        before += tasks.count;
        at = tasks.end();
    }
    (at + 7) / 8
}

// The transactions, behind the header.
fn lay_transactions(row: &[u32], buffer: &mut [u8])
    requires { Kept (table_of row.now) }
    ensures { buffer.new ≡ bits_put buffer.old first_at (joined (transactions (table_of row.now)) (λ u. transaction_bits (transaction_of row.now u))) }
{
    let count = Table::transactions(row);
    let mut before: usize = 0;
    let mut at = Table::FIRST_AT;
    for u in 0..count as usize {
        let t = TransactionAt {
            row,
            number: u,
            before,
            at,
        };
        let tasks = t.tasks();
        lay_head(t, buffer);
        lay_tasks(tasks, buffer);
        before += tasks.count;
        at = tasks.end();
    }
}

fn lay_header(row: &[u32], buffer: &mut [u8])
    ensures { buffer.new ≡ bits_put buffer.old 0 (header_bits row.now) }
{
    put(buffer, 0, Table::EDITION_WIDTH, Table::edition(row));
    put(
        buffer,
        Table::FRAME_AT,
        Table::FRAME_WIDTH,
        Table::frame(row),
    );
    put(
        buffer,
        Table::COUNT_AT,
        Table::TRANSACTIONS_WIDTH,
        Table::transactions(row),
    );
}

pub(crate) fn lay(row: &[u32], buffer: &mut [u8])
    requires { Kept (table_of row.now) }
    ensures { buffer.new ≡ bits_put buffer.old 0 (table_bits (table_of row.now)) }
{
    lay_header(row, buffer);
    lay_transactions(row, buffer);
}
