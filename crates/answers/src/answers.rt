// A task's answer, and its cells.
ghost use Rattle.std.specs.Prelude.{◌≡◌, ◌<◌, ◌≤◌, ◌^◌, length};
ghost use Rattle.row.specs.Row.{table_of, RowOfTable};
ghost use Rattle.table.specs.Table.{IsTask, transactions};
ghost use Rattle.table.specs.Number.{before, in_all};
ghost use Rattle.periods.specs.Charge.{imposed};
ghost use Rattle.analysis.specs.Answer.{named};
ghost use Rattle.analysis.specs.Walk.{answer};
ghost use Rattle.answers.specs.Parts.{IsSubjectAt, Chooses};
ghost use Rattle.answers.specs.Turn.{source_meant};
ghost use Rattle.answers.specs.Work.{work_cells, Lent, IsSubject};
ghost use Rattle.told.specs.Answered.{named_meant, meant, cells_meant};
ghost use Rattle.told.specs.Told.{OwedAt};
ghost use Rattle.parts.specs.Parts.{OfTask};

use super::chains::Stopped;
use super::charges::Subject;
use super::layout::Work;
use super::lent::Linked;
use super::quantity::Jobs;
use super::walk::{Source, Walk};
use super::{links, reads, work};
use refusals::{Fault, Refusal};
use row::Table;
use told::{Named, TaskAnswer, TaskCells};

// A job of the walk of a task of u, as a caller is told.
fn named(work: &[u32; Work::CELLS], u: usize, x: Source) -> Named
    requires lent { Lent work.now }
    requires task { IsTask (table_of work.now) u x.candidate }
    requires mode_bound { x.mode < 2 ^ 32 }
    requires job_bound { x.job.0 < 2 ^ 32 }
    ensures { named_meant result ≡ named (table_of work.now) u (source_meant x) }
{
    Named {
        mode: x.mode as u32,
        candidate: reads::number(work, u, x.candidate) as u32,
        job: x.job.0 as u32,
    }
}

// The job of that walk that a caller is told so.
pub(crate) fn source(work: &[u32; Work::CELLS], u: usize, by: Named) -> Source
    requires lent { Lent work.now }
    requires u_bound { u < transactions (table_of work.now) }
    requires u_bound_2 { before (table_of work.now) u ≤ by.candidate }
    ensures { named (table_of work.now) u (source_meant result) ≡ named_meant by }
{
    Source {
        mode: by.mode as usize,
        candidate: by.candidate as usize - reads::before(work, u),
        job: Jobs(u64::from(by.job)),
    }
}

// The answer of the subject under a budget.
pub(crate) fn answer(work: &[u32; Work::CELLS], s: Subject, budget: u32) -> TaskAnswer
    requires lent { Lent work.now }
    requires subject { IsSubject work.now s }
    ensures { meant result ≡ answer imposed (table_of work.now) s.u s.a budget }
{
    let cells = Linked { work, s };
    if cells.is_overload() {
        return TaskAnswer::Overload;
    }
    match Walk::new().modes(&cells, budget) {
        Ok(Walk { used, best }) => {
            TaskAnswer::Bound(best.response.0 as u32, used, named(work, s.u, best.source))
        }
        Err(Stopped::Past(used)) => TaskAnswer::Beyond(used),
        Err(Stopped::Short) => TaskAnswer::Spent(budget),
    }
}

// The task with number k, with work cells of the table that may be another task's, and then are its own.
pub(crate) fn subject(work: &mut [u32; Work::CELLS], k: usize) -> Subject
    requires lent { Lent work.old }
    requires k_bound { k < in_all (table_of work.old) }
    ensures subject_at { IsSubjectAt (table_of work.old) k result }
    ensures lent_2 { Lent work.new }
    ensures work_unchanged { table_of work.new ≡ table_of work.old }
    ensures subject { IsSubject work.new result }
{
    let s = work::task(&*work, k);
    work::weigh(work, s);
    links::link(work, s);
    s
}

// The task of that number of the table that the work cells begin with, and then are its own; 13 where there is none.
pub(crate) fn chosen(work: &mut [u32; Work::CELLS], task: usize) -> Result<Subject, Fault>
    requires row_of_table { RowOfTable work.old }
    requires work_len { length work.old ≡ work_cells }
    ensures { OfTask (Chooses work.new) task (table_of work.old) result }
{
    if reads::in_all(&*work) <= task {
        return Err(Fault {
            refusal: Refusal::NoTask,
            place: 0,
        });
    }
    work::prepare(work);
    Ok(subject(work, task))
}

// The cells of the task with number k.
pub(crate) fn task_cells(work: &mut [u32; Work::CELLS], k: usize, budget: u32) -> TaskCells
    requires lent { Lent work.old }
    requires k_bound { k < in_all (table_of work.old) }
    ensures owed_at { OwedAt (table_of work.old) k budget (cells_meant result) }
    ensures lent_2 { Lent work.new }
    ensures work_unchanged { table_of work.new ≡ table_of work.old }
{
    let s = subject(work, k);
    answer(&*work, s, budget).cells(Table::deadline(&*work, k))
}
