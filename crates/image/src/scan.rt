// The first fault of an image, front to back. Reading a field is total, so a field is read whether the image holds it or not: that it
// does is a check of its own that stands before, and what is read past a fault cannot show.
ghost use Rattle.std.specs.Prelude.{◌≡◌, ◌^◌, ◌<◌, IsTrue};
ghost use Rattle.table.specs.Limits.{time_width};
ghost use Rattle.refusals.specs.Answer.{accepted, first_of};
ghost use Rattle.format.specs.Places.{time_at};
ghost use Rattle.format.specs.Said.{frame_in};
ghost use Rattle.format.specs.Fault.{ends_at, header_fault, task_fault, head_fault, transaction_fault, end_fault, body_fault, image_fault};

use super::parts::{TaskAt, TransactionAt};
use refusals::{Answer, Refusal, check};
use row::{Table, Task, Transaction};

// The image ends inside a field.
fn ends(image: &[u8], at: usize, width: usize) -> Answer
    ensures { result ≡ ends_at image.now at width }
{
    check(bits::inside(image, at, width), Refusal::EndsInside, at)
}

#[tactic(auto, unfolding(refusals::proofs::Findings::joining, table::specs::Rules::header_rules))]
fn header(image: &[u8]) -> Answer
    ensures { result ≡ header_fault image.now }
{
    let edition = bits::value(image, 0, Table::EDITION_WIDTH);
    let frame = bits::value(image, Table::FRAME_AT, Table::FRAME_WIDTH);
    let count = bits::value(image, Table::COUNT_AT, Table::TRANSACTIONS_WIDTH) as usize;
    ends(image, 0, Table::EDITION_WIDTH)?;
    rules::edition(edition, 0)?;
    ends(image, Table::FRAME_AT, Table::FRAME_WIDTH)?;
    rules::frame(frame, Table::FRAME_AT)?;
    ends(image, Table::COUNT_AT, Table::TRANSACTIONS_WIDTH)?;
    rules::transactions(count, Table::COUNT_AT)
}

// The image ends inside one of a task's times.
fn times_end(task: TaskAt) -> Answer
    ensures { result ≡ first_of task.entry.modes (λ m. ends_at task.entry.image.now (time_at task.entry.at m) time_width) }
{
    for m in 0..task.modes {
        ends(task.image, task.time_at(m), Task::TIME_WIDTH)?;
    }
    Ok(())
}

#[tactic(auto, unfolding(refusals::proofs::Findings::joining, table::specs::Rules::task_rules))]
fn task_fault(task: TaskAt) -> Answer
    ensures { result ≡ task_fault task.entry.image.now task.entry.modes task.entry.at }
{
    let TaskAt { image, at, .. } = task;
    let deadline = at + Task::DEADLINE_AT;
    let times = at + Task::TIMES_AT;
    let offset = bits::value(image, at, Task::OFFSET_WIDTH);
    let due = bits::value(image, deadline, Task::DEADLINE_WIDTH);
    let time = task.greatest_time();
    ends(image, at, Task::OFFSET_WIDTH)?;
    ends(image, at + Task::JITTER_AT, Task::JITTER_WIDTH)?;
    ends(image, at + Task::BLOCKING_AT, Task::BLOCKING_WIDTH)?;
    ends(image, deadline, Task::DEADLINE_WIDTH)?;
    rules::deadline(due, deadline)?;
    ends(image, at + Task::PRIORITY_AT, Task::PRIORITY_WIDTH)?;
    times_end(task)?;
    rules::times(time, times)?;
    rules::keepable(offset, time, due, deadline)
}

// A task that is there whole, runs and has a deadline that can be kept has no fault: then the deadline is not 0.
fn is_sound(task: TaskAt) -> bool
    ensures { IsTrue result → task_fault task.entry.image.now task.entry.modes task.entry.at ≡ accepted }
{
    let TaskAt { image, at, modes } = task;
    if !bits::inside(image, at, Task::TIMES_AT + modes * Task::TIME_WIDTH) {
        return false;
    }
    let time = task.greatest_time();
    let offset = bits::value(image, at, Task::OFFSET_WIDTH);
    let due = bits::value(image, at + Task::DEADLINE_AT, Task::DEADLINE_WIDTH);
    0 < time && rules::is_keepable(offset, time, due)
}

// Findings are put together only where there is one.
fn task(task: TaskAt) -> Answer
    ensures { result ≡ task_fault task.entry.image.now task.entry.modes task.entry.at }
{
    if is_sound(task) {
        Ok(())
    } else {
        task_fault(task)
    }
}

// The counts and the period of a transaction, where `before` tasks stand before it.
#[tactic(auto, unfolding(refusals::proofs::Findings::joining, table::specs::Rules::head_rules))]
fn head_fault(frame: u32, before: usize, t: TransactionAt) -> Answer
    requires { frame ≡ frame_in t.image.now }
    ensures { result ≡ head_fault t.entry.image.now before t.entry.at }
{
    let TransactionAt { image, at, head } = t;
    let modes = at + Transaction::MODES_AT;
    let tasks = at + Transaction::TASKS_AT;
    ends(image, at, Transaction::PERIOD_WIDTH)?;
    rules::period(frame, head.period, at)?;
    ends(image, modes, Transaction::MODES_WIDTH)?;
    rules::modes(head.modes, modes)?;
    ends(image, tasks, Transaction::TASKS_WIDTH)?;
    rules::tasks(before, head.tasks, tasks)
}

// Its findings are put together only where there is one.
fn transaction(frame: u32, before: usize, t: TransactionAt) -> Answer
    requires { frame ≡ frame_in t.image.now }
    ensures { result ≡ transaction_fault t.entry.image.now before t.entry.at }
{
    let whole = bits::inside(t.image, t.at, Transaction::WIDTH);
    if !whole || !rules::is_head(frame, before, t.head) {
        head_fault(frame, before, t)?;
    }
    for j in 0..t.head.tasks {
        task(t.task(j))?;
    }
    Ok(())
}

// Padding that starts at a bit position, and what follows it.
#[tactic(auto, unfolding(refusals::proofs::Findings::joining, format::specs::Fault::end_fault))]
fn end(image: &[u8], at: usize) -> Answer
    requires { at < 2 ^ 32 }
    ensures { result ≡ end_fault image.now at }
{
    let bytes = (at + 7) / 8;
    let next = 8 * bytes;
    let padding = bits::value(image, at, next - at);
    check(padding == 0, Refusal::PaddingSet, at)?;
    check(image.len() <= bytes, Refusal::BytesFollow, next)
}

// The transactions, and the end of the image.
fn transactions(image: &[u8]) -> Answer
    ensures { result ≡ body_fault image.now }
{
    let frame = bits::value(image, Table::FRAME_AT, Table::FRAME_WIDTH);
    let count = bits::value(image, Table::COUNT_AT, Table::TRANSACTIONS_WIDTH);
    let mut before: usize = 0;
    let mut at = Table::FIRST_AT;
    for u in 0..count {
        let t = TransactionAt::new(image, at);
        transaction(frame, before, t)?;
        before += t.head.tasks;
        at = t.end();
    }
    end(image, at)
}

#[tactic(auto, unfolding(refusals::proofs::Findings::joining, format::specs::Fault::image_fault, table::specs::Rules::table_rules))]
pub(crate) fn first_fault(image: &[u8]) -> Answer
    ensures { result ≡ image_fault image.now }
{
    header(image)?;
    transactions(image)
}
