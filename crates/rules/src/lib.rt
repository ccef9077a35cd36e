// A table's rules in code, once: what is asked of a number by itself, whoever brings it. Each function is the check of one field,
// refused at its place. It knows the limits of a table; it knows nothing of bits, of images or of rows' cells.
#![tactic(auto)]

ghost use Rattle.std.specs.Prelude.{◌≡◌, ◌&&◌, ◌+◌, leb, eqb};
ghost use Rattle.refusals.specs.Answer.{checked};
ghost use Rattle.refusals.specs.declared.Refusal.TheVariants.{EditionUnknown, FrameZero, TransactionCount, PeriodUnfit, ModeCount, TaskCount, DeadlineZero, NeverRuns, DeadlineShort};
ghost use Rattle.table.specs.Limits.{edition_known, transactions_most, modes_most, tasks_most, tasks_in_all};
ghost use Rattle.table.specs.Rules.{is_between, is_divisor};

use refusals::{Answer, Refusal, check};
use row::{Table, Transaction};

fn divides(frame: u32, period: u32) -> bool
    ensures { result ≡ is_divisor frame period }
{
    1 <= period && frame % period == 0
}

// A task count is in range, and the sum so far with it.
fn few_tasks(before: usize, tasks: usize) -> bool
    ensures { result ≡ (is_between 1 tasks_most tasks && leb (before + tasks) tasks_in_all) }
{
    (1..=Transaction::TASKS).contains(&tasks) && before <= Table::TASKS - tasks
}

pub fn edition(n: u32, at: usize) -> Answer
    ensures { result ≡ checked (eqb n edition_known) EditionUnknown at }
{
    check(n == Table::EDITION, Refusal::EditionUnknown, at)
}

pub fn frame(n: u32, at: usize) -> Answer
    ensures { result ≡ checked (leb 1 n) FrameZero at }
{
    check(1 <= n, Refusal::FrameZero, at)
}

pub fn transactions(n: usize, at: usize) -> Answer
    ensures { result ≡ checked (is_between 1 transactions_most n) TransactionCount at }
{
    check(
        (1..=Table::TRANSACTIONS).contains(&n),
        Refusal::TransactionCount,
        at,
    )
}

// Under that major frame.
pub fn period(frame: u32, n: u32, at: usize) -> Answer
    ensures { result ≡ checked (is_divisor frame n) PeriodUnfit at }
{
    check(divides(frame, n), Refusal::PeriodUnfit, at)
}

pub fn modes(n: usize, at: usize) -> Answer
    ensures { result ≡ checked (is_between 1 modes_most n) ModeCount at }
{
    check(
        (1..=Transaction::MODES).contains(&n),
        Refusal::ModeCount,
        at,
    )
}

// Where so many tasks stand before the transaction.
pub fn tasks(before: usize, n: usize, at: usize) -> Answer
    ensures { result ≡ checked (is_between 1 tasks_most n && leb (before + n) tasks_in_all) TaskCount at }
{
    check(few_tasks(before, n), Refusal::TaskCount, at)
}

// The three rules of a transaction before its tasks at once.
pub fn is_head(frame: u32, before: usize, head: Transaction) -> bool
    ensures { result ≡ (is_divisor frame head.period && (is_between 1 modes_most head.modes && (is_between 1 tasks_most head.tasks && leb (before + head.tasks) tasks_in_all))) }
{
    divides(frame, head.period)
        && (1..=Transaction::MODES).contains(&head.modes)
        && few_tasks(before, head.tasks)
}

pub fn deadline(n: u32, at: usize) -> Answer
    ensures { result ≡ checked (leb 1 n) DeadlineZero at }
{
    check(1 <= n, Refusal::DeadlineZero, at)
}

// By the greatest of the task's times.
pub fn times(greatest: u32, at: usize) -> Answer
    ensures { result ≡ checked (leb 1 greatest) NeverRuns at }
{
    check(1 <= greatest, Refusal::NeverRuns, at)
}

// A deadline leaves room for the offset and the greatest of the task's times.
pub fn is_keepable(offset: u32, greatest: u32, deadline: u32) -> bool
    ensures { result ≡ leb (offset + greatest) deadline }
{
    u64::from(offset) + u64::from(greatest) <= u64::from(deadline)
}

pub fn keepable(offset: u32, greatest: u32, deadline: u32, at: usize) -> Answer
    ensures { result ≡ checked (leb (offset + greatest) deadline) DeadlineShort at }
{
    check(
        is_keepable(offset, greatest, deadline),
        Refusal::DeadlineShort,
        at,
    )
}
