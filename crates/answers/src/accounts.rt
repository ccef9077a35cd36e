// All that is told of one task, by one walk: its cells, what its bound is made of, what each other transaction charges until the
// completion, and how the tasks of its own transaction stand from the critical instant on.
ghost use Rattle.std.specs.Prelude.{◌≡◌, length, OnErr, ◌<◌};
ghost use Rattle.row.specs.Row.{table_of, RowOfTable};
ghost use Rattle.table.specs.Table.{transactions, modes, tasks};
ghost use Rattle.account.specs.Account.{charges_cell, shares_cell, charge_cells, share_cells, laid, share_of, charge_of, AccountFor, with_cells};
ghost use Rattle.parts.specs.Parts.{OfTask};
ghost use Rattle.answers.specs.Split.{moment, IsSetting};
ghost use Rattle.answers.specs.Work.{work_cells, Lent, IsSubject};

use super::charges::{Split, Subject};
use super::layout::Work;
use super::lent::Weighed;
use super::pushed::Bounded;
use super::quantity::Ticks;
use super::walk::Source;
use super::{answers, charges, pushed, reads, work};
use account::{Account, Share};
use refusals::Fault;
use row::Table;

// How task j of the subject's transaction stands when candidate c sets the instant in mode m, and what it charges by t.
fn share(work: &[u32; Work::CELLS], s: Subject, m: usize, c: usize, x: Split, j: usize) -> Share
    requires setting { IsSetting work.now s s.u m c x }
    requires j_bound { j < tasks (table_of work.now) s.u }
    ensures { result ≡ share_of (table_of work.now) s.u s.a (record { mode = m; candidate = c }) (moment x) j }
{
    let phase = charges::phase_of(work, s.u, c, j).0 as u32;
    let held = charges::held_of(work, s.u, c, j).0;
    let cells = Weighed { work, s };
    let weight = cells.weight(s.u, m, j);
    let rest = x.rest_of(false, phase, weight);
    let jobs = held + x.whole_periods(false);
    Share {
        phase,
        held: held as u32,
        ticks: jobs * u64::from(weight) + u64::from(rest),
    }
}

// Stores the shares of all tasks of the subject's transaction, place by place.
fn put_shares(
    work: &[u32; Work::CELLS],
    s: Subject,
    by: Source,
    t: u32,
    cells: &mut [u64; Account::CELLS],
)
    requires lent { Lent work.now }
    requires subject { IsSubject work.now s }
    requires mode_bound { by.mode < modes (table_of work.now) s.u }
    requires candidate_bound { by.candidate < tasks (table_of work.now) s.u }
    ensures { cells.new ≡ laid shares_cell (tasks (table_of work.now) s.u) (λ j. share_cells (share_of (table_of work.now) s.u s.a (record { mode = by.mode; candidate = by.candidate }) t j)) cells.old }
{
    let x = charges::split_of(work, s.u, Ticks(u64::from(t)));
    for j in 0..x.count {
        share(work, s, by.mode, by.candidate, x, j).put(cells, j);
    }
}

// Stores what each transaction charges the subject by t, one after the other.
fn put_charges(work: &[u32; Work::CELLS], s: Subject, t: u32, cells: &mut [u64; Account::CELLS])
    requires lent { Lent work.now }
    requires subject { IsSubject work.now s }
    ensures { cells.new ≡ laid charges_cell (transactions (table_of work.now)) (λ i. charge_cells (charge_of (table_of work.now) s.u s.a t i)) cells.old }
{
    let count = reads::transactions(work);
    for i in 0..count {
        Account::put_charge(Ok(pushed::charged(work, s, false, i, t)), cells, i);
    }
}

// What is told of the subject under a budget.
fn subject_account(
    work: &[u32; Work::CELLS],
    s: Subject,
    budget: u32,
    cells: &mut [u64; Account::CELLS],
) -> Account
    requires lent { Lent work.now }
    requires subject { IsSubject work.now s }
    ensures { AccountFor budget cells.old (table_of work.now) s.u s.a (result, cells.new) }
{
    let deadline = Table::deadline(work, reads::number(work, s.u, s.a));
    let explained = pushed::explain(work, s, budget);
    let told = explained.answer.cells(deadline);
    match explained.bounded {
        None => Account {
            cells: told,
            parts: None,
        },
        Some(Bounded { by, parts }) => {
            put_charges(work, s, parts.completion, cells);
            put_shares(work, s, by, parts.completion, cells);
            Account {
                cells: told,
                parts: Some(parts),
            }
        }
    }
}

// What is told of one task of the table that the work cells begin with.
pub(crate) fn account_from(
    work: &mut [u32; Work::CELLS],
    task: usize,
    budget: u32,
    cells: &mut [u64; Account::CELLS],
) -> Result<Account, Fault>
    requires row_of_table { RowOfTable work.old }
    requires work_len { length work.old ≡ work_cells }
    ensures told { OfTask (AccountFor budget cells.old) task (table_of work.old) (with_cells cells.new result) }
    ensures stays { OnErr result (cells.new ≡ cells.old) }
{
    let s = answers::chosen(work, task)?;
    Ok(subject_account(&*work, s, budget, cells))
}
