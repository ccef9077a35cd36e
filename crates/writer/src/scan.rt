// The first fault of the table that a row holds, front to back. Reading a cell is total, so each check reads its number whether the
// row holds it or not. A count may be any number: what is counted is looked at only where the count was accepted, and all places
// are small there, so that no sum wraps.
ghost use Rattle.std.specs.Prelude.{◌≡◌, ◌/◌, ◌^◌, ◌<◌, ◌≤◌, IsTrue};
ghost use Rattle.table.specs.Limits.{time_width, transactions_most};
ghost use Rattle.table.specs.Table.{transactions};
ghost use Rattle.refusals.specs.Answer.{accepted, first_of};
ghost use Rattle.row.specs.Row.{table_of, time_cell};
ghost use Rattle.format.specs.Places.{time_at};
ghost use Rattle.format.specs.Write.{table_fault};
ghost use Rattle.writer.specs.Scan.{fits_at, header_fault, task_fault, head_fault, transaction_fault, body_fault};

use super::parts::{TaskAt, TransactionAt};
use refusals::{Answer, Refusal, check};
use row::{Table, Task, Transaction};

// What a number has above its lowest bits: 0 where it fits a field of that width.
fn above(number: u32, width: usize) -> u32
    requires { width < 32 }
    ensures { result ≡ number / 2 ^ width }
{
    number >> width
}

// A number is too large for a field of that width.
fn fits(number: u32, width: usize, at: usize) -> Answer
    requires { width < 32 }
    ensures { result ≡ fits_at number width at }
{
    check(above(number, width) == 0, Refusal::TooLarge, at)
}

#[tactic(auto, unfolding(refusals::proofs::Findings::joining, table::specs::Rules::header_rules, table::specs::Fields::number_in))]
fn header(row: &[u32]) -> Answer
    ensures { result ≡ header_fault row.now }
{
    let edition = Table::edition(row);
    let frame = Table::frame(row);
    let count = Table::transactions(row);
    fits(edition, Table::EDITION_WIDTH, 0)?;
    rules::edition(edition, 0)?;
    fits(frame, Table::FRAME_WIDTH, Table::FRAME_AT)?;
    rules::frame(frame, Table::FRAME_AT)?;
    fits(count, Table::TRANSACTIONS_WIDTH, Table::COUNT_AT)?;
    rules::transactions(count as usize, Table::COUNT_AT)
}

// One of a task's times is too large.
fn times_fit(task: TaskAt) -> Answer
    ensures { result ≡ first_of task.entry.modes (λ m. fits_at (time_cell task.entry.row.now task.entry.number m) time_width (time_at task.entry.at m)) }
{
    for m in 0..task.modes {
        fits(task.time(m), Task::TIME_WIDTH, task.time_at(m))?;
    }
    Ok(())
}

// A task has no fault, as nearly every task: asked before its checks one by one, by one test for the five numbers before its times and
// the greatest of these, of which nothing may lie above their fields. Where its deadline can be kept, that is not 0.
fn is_sound(task: TaskAt) -> bool
    ensures { IsTrue result → task_fault task.entry.row.now task.entry.modes task.entry.number task.entry.at ≡ accepted }
{
    let TaskAt { row, number, .. } = task;
    let offset = Table::offset(row, number);
    let due = Table::deadline(row, number);
    let time = task.greatest_time();
    let over = above(offset, Task::OFFSET_WIDTH)
        + above(Table::jitter(row, number), Task::JITTER_WIDTH)
        + above(Table::blocking(row, number), Task::BLOCKING_WIDTH)
        + above(due, Task::DEADLINE_WIDTH)
        + above(Table::priority(row, number), Task::PRIORITY_WIDTH)
        + above(time, Task::TIME_WIDTH);
    over == 0 && 0 < time && rules::is_keepable(offset, time, due)
}

// The first fault of a task, check by check.
#[tactic(auto, unfolding(refusals::proofs::Findings::joining, table::specs::Rules::task_rules))]
fn task_fault(task: TaskAt) -> Answer
    ensures { result ≡ task_fault task.entry.row.now task.entry.modes task.entry.number task.entry.at }
{
    let TaskAt {
        row,
        number,
        at,
        ..
    } = task;
    let jitter_at = at + Task::JITTER_AT;
    let blocking_at = at + Task::BLOCKING_AT;
    let deadline_at = at + Task::DEADLINE_AT;
    let priority_at = at + Task::PRIORITY_AT;
    let offset = Table::offset(row, number);
    let due = Table::deadline(row, number);
    let time = task.greatest_time();
    fits(offset, Task::OFFSET_WIDTH, at)?;
    fits(Table::jitter(row, number), Task::JITTER_WIDTH, jitter_at)?;
    fits(
        Table::blocking(row, number),
        Task::BLOCKING_WIDTH,
        blocking_at,
    )?;
    fits(due, Task::DEADLINE_WIDTH, deadline_at)?;
    rules::deadline(due, deadline_at)?;
    fits(
        Table::priority(row, number),
        Task::PRIORITY_WIDTH,
        priority_at,
    )?;
    times_fit(task)?;
    rules::times(time, at + Task::TIMES_AT)?;
    rules::keepable(offset, time, due, deadline_at)
}

// The same, where the checks are made only of a task that may have a fault.
fn task(task: TaskAt) -> Answer
    ensures { result ≡ task_fault task.entry.row.now task.entry.modes task.entry.number task.entry.at }
{
    if is_sound(task) {
        Ok(())
    } else {
        task_fault(task)
    }
}

// The counts and the period of a transaction.
#[tactic(auto, unfolding(refusals::proofs::Findings::joining, table::specs::Rules::head_rules))]
fn head(t: TransactionAt) -> Answer
    ensures { result ≡ head_fault t.entry.row.now t.entry.number t.entry.before t.entry.at }
{
    let TransactionAt {
        row,
        number,
        before,
        at,
    } = t;
    let modes_at = at + Transaction::MODES_AT;
    let tasks_at = at + Transaction::TASKS_AT;
    let frame = Table::frame(row);
    let period = Table::period(row, number);
    let modes = Table::modes(row, number);
    let tasks = Table::tasks(row, number);
    fits(period, Transaction::PERIOD_WIDTH, at)?;
    rules::period(frame, period, at)?;
    fits(modes, Transaction::MODES_WIDTH, modes_at)?;
    rules::modes(modes as usize, modes_at)?;
    fits(tasks, Transaction::TASKS_WIDTH, tasks_at)?;
    rules::tasks(before, tasks as usize, tasks_at)
}

fn transaction(t: TransactionAt) -> Answer
    ensures { result ≡ transaction_fault t.entry.row.now t.entry.number t.entry.before t.entry.at }
{
    head(t)?;
    let tasks = t.tasks();
    for j in 0..tasks.count {
        task(tasks.task(j))?;
    }
    Ok(())
}

// The transactions, where their count is accepted.
fn transactions(row: &[u32]) -> Answer
    requires { transactions (table_of row.now) ≤ transactions_most }
    ensures { result ≡ body_fault row.now }
{
    let count = Table::transactions(row);
    let mut before: usize = 0;
    let mut at = Table::FIRST_AT;
    for u in 0..count as usize {
        let t = TransactionAt {
            row,
            number: u,
            before,
            at,
        };
        transaction(t)?;
        let tasks = t.tasks();
        before += tasks.count;
        at = tasks.end();
    }
    Ok(())
}

#[tactic(auto, unfolding(refusals::proofs::Findings::joining))]
pub(crate) fn first_fault(row: &[u32]) -> Answer
    ensures { result ≡ table_fault (table_of row.now) }
{
    header(row)?;
    transactions(row)
}
