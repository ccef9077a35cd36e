// Filling the work cells, which begin with a table's row: its phases and held-back jobs once for a table, and the weights with
// their sums once for each task under analysis.
ghost use Rattle.std.specs.Prelude.{◌≡◌, ◌+◌, ◌*◌, ◌<◌, ◌≤◌, ◌^◌, length};
ghost use Rattle.table.specs.Table.{IsTask, transactions, modes};
ghost use Rattle.table.specs.Limits.{transactions_most, modes_most, tasks_most, tasks_in_all};
ghost use Rattle.table.specs.Number.{before, in_all};
ghost use Rattle.row.specs.Row.{row_cells, table_of, RowOfTable};
ghost use Rattle.periods.specs.Phase.{phase};
ghost use Rattle.analysis.specs.Charge.{phase_of, held_of};
ghost use Rattle.answers.specs.Work.{work_cells, weights_cell, Lent, Chosen, Weighs};
ghost use Rattle.charge.specs.Weight.{weight, held_back};
ghost use Rattle.answers.specs.Parts.{SameTo, IsSubjectAt, Phased, TasksOf, ModeWeighed, WeighedTo};

use super::charges::Subject;
use super::layout::Work;
use super::reads;
use row::{Table, Task, Transaction};

// (offset − instant) mod period
fn phase(period: u32, offset: u32, instant: u32) -> u32
    requires period_nonzero { 0 < period }
    requires period_bound { period < 2 ^ 24 }
    ensures { result ≡ phase period offset instant }
{
    let from = instant % period;
    let to = offset % period;
    if from <= to {
        to - from
    } else {
        to + (period - from)
    }
}

// The task with number k.
pub(crate) fn task(work: &[u32; Work::CELLS], k: usize) -> Subject
    requires row_of_table { RowOfTable work.now }
    requires k_bound { k < in_all (table_of work.now) }
    ensures { IsSubjectAt (table_of work.now) k result }
{
    let u = Table::owner(work, k) as usize;
    let a = k - Table::first(work, u) as usize;
    Subject {
        u,
        a,
        priority: Table::priority(work, k),
    }
}

// Phase of task j when candidate c sets the critical instant, worked out of the row; `charges` reads it from its cell.
#[tactic(auto, using(crate::proofs::Rooms::ranges, crate::proofs::Rooms::fields), unfolding(analysis::specs::Charge::phase_of))]
fn phase_of(work: &[u32; Work::CELLS], i: usize, c: usize, j: usize) -> u32
    requires row_of_table { RowOfTable work.now }
    requires task { IsTask (table_of work.now) i c }
    requires task_2 { IsTask (table_of work.now) i j }
    ensures { result ≡ phase_of (table_of work.now) i c j }
{
    let k = reads::number(work, i, c);
    let offset = Table::offset(work, reads::number(work, i, j));
    phase(
        Table::period(work, i),
        offset,
        Table::offset(work, k) + Table::jitter(work, k),
    )
}

// Jobs of task j held back to the instant, likewise.
#[tactic(auto, using(crate::proofs::Rooms::ranges, crate::proofs::Rooms::fields), unfolding(analysis::specs::Charge::held_of, periods::specs::Phase::held))]
fn held_of(work: &[u32; Work::CELLS], i: usize, c: usize, j: usize) -> u32
    requires row_of_table { RowOfTable work.now }
    requires task { IsTask (table_of work.now) i c }
    requires task_2 { IsTask (table_of work.now) i j }
    ensures { result ≡ held_of (table_of work.now) i c j }
{
    let jitter = Table::jitter(work, reads::number(work, i, j));
    (jitter + phase_of(work, i, c, j)) / Table::period(work, i)
}

// The phases, and the jobs held back, of candidate number k.
#[tactic(auto, using(crate::proofs::Rooms::rooms))]
fn put_phases(work: &mut [u32; Work::CELLS], k: usize)
    requires row_of_table { RowOfTable work.old }
    requires work_len { length work.old ≡ work_cells }
    requires k_bound { k < in_all (table_of work.old) }
    requires phased { Phased (table_of work.old) k work.old }
    ensures phased_2 { Phased (table_of work.old) (k + 1) work.new }
    ensures same_to { SameTo row_cells work.old work.new }
{
    let x = task(&*work, k);
    let i = x.u;
    let c = x.a;
    let count = reads::tasks(&*work, i);
    for j in 0..count {
        let phase = phase_of(&*work, i, c, j);
        let held = held_of(&*work, i, c, j);
        work[Work::PHASES + Transaction::TASKS * k + j] = phase;
        work[Work::HELD + Transaction::TASKS * k + j] = held;
    }
}

// The phases, and the jobs held back, behind a table's row: once for all its tasks.
pub(crate) fn prepare(work: &mut [u32; Work::CELLS])
    requires row_of_table { RowOfTable work.old }
    requires work_len { length work.old ≡ work_cells }
    ensures lent { Lent work.new }
    ensures work_unchanged { table_of work.new ≡ table_of work.old }
{
    let count = reads::in_all(&*work);
    for k in 0..count {
        put_phases(work, k);
    }
}

// The time of task j, number k, in mode m where it is a rival of the subject, else 0.
#[tactic(auto, using(crate::proofs::Rooms::rooms))]
fn weight(work: &[u32; Work::CELLS], s: Subject, i: usize, m: usize, j: usize, k: usize) -> u32
    requires row_of_table { RowOfTable work.now }
    requires chosen { Chosen (table_of work.now) s }
    requires task { IsTask (table_of work.now) i j }
    requires m_bound { m < modes (table_of work.now) i }
    requires k_value { k ≡ before (table_of work.now) i + j }
    ensures { result ≡ weight (table_of work.now) s.u s.a i m j }
{
    let cell = Table::TASKS_CELL + k * Task::CELLS;
    if work[cell + Task::PRIORITY_CELL] < s.priority {
        return 0;
    }
    if i == s.u && j == s.a {
        return 0;
    }
    work[cell + (Task::TIMES_CELL + m)]
}

// Transaction i in mode m: the number of its first task, and how many it has.
#[derive(Clone, Copy)]
struct Mode {
    i: usize,
    m: usize,
    first: usize,
    count: usize,
    ghost in_table: { i < transactions_most },
    ghost few_modes: { m < modes_most },
    ghost few_tasks: { count ≤ tasks_most },
    ghost within: { first + count ≤ tasks_in_all },
}

// The weights of its tasks, and their sum.
fn put_weights(work: &mut [u32; Work::CELLS], s: Subject, of: Mode)
    requires lent { Lent work.old }
    requires chosen { Chosen (table_of work.old) s }
    requires tasks_of { TasksOf (table_of work.old) of.i of.first of.count }
    requires m_bound { of.m < modes (table_of work.old) of.i }
    requires weighed_to { WeighedTo (table_of work.old) s.u s.a (modes_most * of.i + of.m) work.old }
    ensures same_to { SameTo weights_cell work.old work.new }
    ensures weighed_to_2 { WeighedTo (table_of work.old) s.u s.a (modes_most * of.i + of.m) work.new }
    ensures mode_weighed { ModeWeighed (table_of work.old) s.u s.a of.i of.m work.new }
{
    let mut mode_weight: u32 = 0;
    for j in 0..of.count {
        let weight = weight(&*work, s, of.i, of.m, j, of.first + j);
        work[Work::WEIGHTS + Table::TASKS * of.m + (of.first + j)] = weight;
        mode_weight += weight;
    }
    work[Work::MODE_WEIGHTS + Transaction::MODES * of.i + of.m] = mode_weight;
}

// What the jobs held back to candidate c's instant weigh, from the cells.
fn held_back(work: &[u32; Work::CELLS], s: Subject, of: Mode, c: usize) -> u64
    requires lent { Lent work.now }
    requires tasks_of { TasksOf (table_of work.now) of.i of.first of.count }
    requires m_bound { of.m < modes (table_of work.now) of.i }
    requires mode_weighed { ModeWeighed (table_of work.now) s.u s.a of.i of.m work.now }
    requires c_lt_count { c < of.count }
    ensures { result ≡ held_back (table_of work.now) s.u s.a of.i of.m c }
{
    let mut held: u64 = 0;
    for j in 0..of.count {
        held += u64::from(work[Work::HELD + Transaction::TASKS * (of.first + c) + j])
            * u64::from(work[Work::WEIGHTS + Table::TASKS * of.m + (of.first + j)]);
    }
    held
}

// The held-back sums of its candidates, each with its lower half first.
fn put_sums(work: &mut [u32; Work::CELLS], s: Subject, of: Mode)
    requires lent { Lent work.old }
    requires tasks_of { TasksOf (table_of work.old) of.i of.first of.count }
    requires m_bound { of.m < modes (table_of work.old) of.i }
    requires weighed_to { WeighedTo (table_of work.old) s.u s.a (modes_most * of.i + of.m) work.old }
    requires mode_weighed { ModeWeighed (table_of work.old) s.u s.a of.i of.m work.old }
    ensures same_to { SameTo weights_cell work.old work.new }
    ensures weighed_to_2 { WeighedTo (table_of work.old) s.u s.a (modes_most * of.i + (of.m + 1)) work.new }
{
    for c in 0..of.count {
        let held = held_back(&*work, s, of, c);
        let at = Work::SUMS + 2 * (Transaction::MODES * (of.first + c) + of.m);
        work[at] = (held % Work::HALF) as u32;
        work[at + 1] = (held / Work::HALF) as u32;
    }
}

#[tactic(auto, using(crate::proofs::Rooms::rooms))]
fn weigh_transaction(work: &mut [u32; Work::CELLS], s: Subject, i: usize)
    requires lent { Lent work.old }
    requires chosen { Chosen (table_of work.old) s }
    requires i_bound { i < transactions (table_of work.old) }
    requires weighed_to { WeighedTo (table_of work.old) s.u s.a (modes_most * i) work.old }
    ensures same_to { SameTo weights_cell work.old work.new }
    ensures weighed_to_2 { WeighedTo (table_of work.old) s.u s.a (modes_most * (i + 1)) work.new }
{
    let first = reads::before(&*work, i);
    let count = reads::tasks(&*work, i);
    let modes = reads::modes(&*work, i);
    for m in 0..modes {
        let of = Mode { i, m, first, count };
        put_weights(work, s, of);
        put_sums(work, s, of);
    }
}

// The weights of the task under analysis, in work cells of the table.
pub(crate) fn weigh(work: &mut [u32; Work::CELLS], s: Subject)
    requires lent { Lent work.old }
    requires chosen { Chosen (table_of work.old) s }
    ensures lent_2 { Lent work.new }
    ensures work_unchanged { table_of work.new ≡ table_of work.old }
    ensures weighs { Weighs work.new s }
{
    let count = reads::transactions(&*work);
    for i in 0..count {
        weigh_transaction(work, s, i);
    }
}
