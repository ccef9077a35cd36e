// The fields of the table that work cells begin with, by the readers of its row: transaction i, and task j of transaction i.
#![tactic(auto, using(crate::proofs::Rooms::rooms, crate::proofs::Rooms::fields), unfolding(table::specs::Number::number))]

ghost use Rattle.std.specs.Prelude.{◌≡◌, ◌<◌};
ghost use Rattle.row.specs.Row.{table_of, RowOfTable};
ghost use Rattle.table.specs.Table.{IsTask, transactions, period, modes, tasks, offset, blocking, priority, time};
ghost use Rattle.table.specs.Number.{before, number, in_all};
ghost use Rattle.answers.specs.Lent.{Owner};

use super::layout::Work;
use row::Table;

pub(crate) fn frame(work: &[u32; Work::CELLS]) -> u64
    ensures { result ≡ (table_of work.now).frame }
{
    u64::from(Table::frame(work))
}

pub(crate) fn transactions(work: &[u32; Work::CELLS]) -> usize
    ensures { result ≡ transactions (table_of work.now) }
{
    Table::transactions(work) as usize
}

pub(crate) fn in_all(work: &[u32; Work::CELLS]) -> usize
    requires { RowOfTable work.now }
    ensures { result ≡ in_all (table_of work.now) }
{
    Table::in_all(work) as usize
}

pub(crate) fn period(work: &[u32; Work::CELLS], i: usize) -> u64
    requires row_of_table { RowOfTable work.now }
    requires i_bound { i < transactions (table_of work.now) }
    ensures { result ≡ period (table_of work.now) i }
{
    u64::from(Table::period(work, i))
}

pub(crate) fn modes(work: &[u32; Work::CELLS], i: usize) -> usize
    requires row_of_table { RowOfTable work.now }
    requires i_bound { i < transactions (table_of work.now) }
    ensures { result ≡ modes (table_of work.now) i }
{
    Table::modes(work, i) as usize
}

// The number of tasks before transaction i.
pub(crate) fn before(work: &[u32; Work::CELLS], i: usize) -> usize
    requires row_of_table { RowOfTable work.now }
    requires i_bound { i < transactions (table_of work.now) }
    ensures { result ≡ before (table_of work.now) i }
{
    Table::first(work, i) as usize
}

pub(crate) fn tasks(work: &[u32; Work::CELLS], i: usize) -> usize
    requires row_of_table { RowOfTable work.now }
    requires i_bound { i < transactions (table_of work.now) }
    ensures { result ≡ tasks (table_of work.now) i }
{
    Table::tasks(work, i) as usize
}

// The number of task j of transaction i.
pub(crate) fn number(work: &[u32; Work::CELLS], i: usize, j: usize) -> usize
    requires row_of_table { RowOfTable work.now }
    requires task { IsTask (table_of work.now) i j }
    ensures { result ≡ number (table_of work.now) i j }
{
    Table::first(work, i) as usize + j
}

// The transaction of task number k.
pub(crate) fn owner(work: &[u32; Work::CELLS], k: usize) -> usize
    requires row_of_table { RowOfTable work.now }
    requires k_bound { k < in_all (table_of work.now) }
    ensures { Owner (table_of work.now) k result }
{
    Table::owner(work, k) as usize
}

pub(crate) fn offset(work: &[u32; Work::CELLS], i: usize, j: usize) -> u64
    requires row_of_table { RowOfTable work.now }
    requires task { IsTask (table_of work.now) i j }
    ensures { result ≡ offset (table_of work.now) i j }
{
    u64::from(Table::offset(work, number(work, i, j)))
}

pub(crate) fn blocking(work: &[u32; Work::CELLS], i: usize, j: usize) -> u64
    requires row_of_table { RowOfTable work.now }
    requires task { IsTask (table_of work.now) i j }
    ensures { result ≡ blocking (table_of work.now) i j }
{
    u64::from(Table::blocking(work, number(work, i, j)))
}

pub(crate) fn priority(work: &[u32; Work::CELLS], i: usize, j: usize) -> u32
    requires row_of_table { RowOfTable work.now }
    requires task { IsTask (table_of work.now) i j }
    ensures { result ≡ priority (table_of work.now) i j }
{
    Table::priority(work, number(work, i, j))
}

pub(crate) fn time(work: &[u32; Work::CELLS], i: usize, m: usize, j: usize) -> u64
    requires row_of_table { RowOfTable work.now }
    requires task { IsTask (table_of work.now) i j }
    requires m_bound { m < modes (table_of work.now) i }
    ensures { result ≡ time (table_of work.now) i m j }
{
    u64::from(Table::time(work, number(work, i, j), m))
}
