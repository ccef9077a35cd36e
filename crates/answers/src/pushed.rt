// Who pushed a task: what its bound is made of, and what one transaction charges it.
ghost use Rattle.std.specs.Prelude.{◌≡◌, length};
ghost use Rattle.row.specs.Row.{table_of, RowOfTable};
ghost use Rattle.periods.specs.Charge.{imposed};
ghost use Rattle.analysis.specs.Parts.{MadeOf};
ghost use Rattle.analysis.specs.Who.{BoundBy};
ghost use Rattle.charge.specs.Later.{later_of};
ghost use Rattle.parts.specs.Parts.{parts_meant, OfTask, MadeFor, ChargedBy};
ghost use Rattle.answers.specs.Explained.{Explains};
ghost use Rattle.answers.specs.Turn.{source_meant};
ghost use Rattle.answers.specs.Work.{work_cells, Lent, IsSubject};

use super::charges::{Setting, Subject};
use super::instant::Instant;
use super::layout::Work;
use super::lent::Linked;
use super::quantity::Ticks;
use super::walk::Source;
use super::{answers, charges, reads, work};
use parts::{Charge, Part, Parts};
use refusals::Fault;
use told::TaskAnswer;

// The parts of a bound of the subject, by the job that gives it.
fn parts_of(work: &[u32; Work::CELLS], s: Subject, bound: u32, by: Source) -> Parts
    requires lent { Lent work.now }
    requires subject { IsSubject work.now s }
    requires bound_by { BoundBy imposed (table_of work.now) s.u s.a bound (source_meant by) }
    ensures { MadeOf (table_of work.now) s.u s.a bound (source_meant by) (parts_meant result) }
{
    let x = Instant::of(&Linked { work, s }, by.mode, by.candidate);
    let arrives = x.arrival(x.job(by.job));
    let w = x.completion(bound, arrives);
    let own = Setting {
        work,
        s,
        i: s.u,
        m: by.mode,
        c: by.candidate,
        x: charges::split_of(work, s.u, w),
    };
    let rivals = own.charge(false);
    Parts {
        completion: w.0 as u32,
        arrival: arrives.0,
        offset: x.offset.0 as u32,
        blocking: x.blocking.0 as u32,
        jobs: ((by.job.0 + 1) * x.time.0) as u32,
        rivals: rivals.0 as u32,
    }
}

// What gives a bound: the job, and the parts.
#[derive(Clone, Copy)]
pub(crate) struct Bounded {
    pub(crate) by: Source,
    pub(crate) parts: Parts,
}

// An answer, and where it is a bound what gives it.
#[derive(Clone, Copy)]
pub(crate) struct Explained {
    pub(crate) answer: TaskAnswer,
    pub(crate) bounded: Option<Bounded>,
}

// The answer of the subject under a budget, explained.
pub(crate) fn explain(work: &[u32; Work::CELLS], s: Subject, budget: u32) -> Explained
    requires lent { Lent work.now }
    requires subject { IsSubject work.now s }
    ensures { Explains budget (table_of work.now) s.u s.a result }
{
    let answer = answers::answer(work, s, budget);
    let TaskAnswer::Bound(bound, _, by) = answer else {
        return Explained {
            answer,
            bounded: None,
        };
    };
    let by = answers::source(work, s.u, by);
    let parts = parts_of(work, s, bound, by);
    Explained {
        answer,
        bounded: Some(Bounded { by, parts }),
    }
}

// What the subject's bound under a budget is made of, where it has one.
fn made(work: &[u32; Work::CELLS], s: Subject, budget: u32) -> Option<Parts>
    requires lent { Lent work.now }
    requires subject { IsSubject work.now s }
    ensures { MadeFor budget (table_of work.now) s.u s.a result }
{
    let bounded = explain(work, s, budget).bounded?;
    Some(bounded.parts)
}

// What transaction i charges the subject by t.
pub(crate) fn charged(work: &[u32; Work::CELLS], s: Subject, whole: bool, i: usize, t: u32) -> Part
    requires lent { Lent work.now }
    requires subject { IsSubject work.now s }
    ensures { ChargedBy (later_of whole) i t (table_of work.now) s.u s.a result }
{
    if i == s.u {
        return Part::Own;
    }
    if i < reads::transactions(work) {
        let cells = Linked { work, s };
        let Some(most) = cells.most_charged(whole, i, Ticks(u64::from(t))) else {
            return Part::NoRivals;
        };
        return Part::Charged(Charge {
            ticks: most.ticks.0,
            mode: most.by.mode as u32,
            candidate: reads::number(work, i, most.by.candidate) as u32,
        });
    }
    Part::NoTransaction
}

// What the bound of one task of the table that the work cells begin with is made of.
pub(crate) fn parts_from(
    work: &mut [u32; Work::CELLS],
    task: usize,
    budget: u32,
) -> Result<Option<Parts>, Fault>
    requires row_of_table { RowOfTable work.old }
    requires work_len { length work.old ≡ work_cells }
    ensures { OfTask (MadeFor budget) task (table_of work.old) result }
{
    let s = answers::chosen(work, task)?;
    Ok(made(&*work, s, budget))
}

// What one transaction charges one task of that table.
pub(crate) fn charge_from(
    work: &mut [u32; Work::CELLS],
    task: usize,
    transaction: usize,
    whole: bool,
    t: u32,
) -> Result<Part, Fault>
    requires row_of_table { RowOfTable work.old }
    requires work_len { length work.old ≡ work_cells }
    ensures { OfTask (ChargedBy (later_of whole) transaction t) task (table_of work.old) result }
{
    let s = answers::chosen(work, task)?;
    Ok(charged(&*work, s, whole, transaction, t))
}
