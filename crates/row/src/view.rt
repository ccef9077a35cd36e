// How a row is read, the table's own or a longer one that begins with it. Each reader has an answer for any row and any
// number: 0 where there may be no such transaction, task or mode.
// They take the row, and are no methods of a view that borrows it: their names are promised, and a view would only say each a second time.
ghost use Rattle.std.specs.Prelude.{◌≡◌, ◌<◌, get_or};
ghost use Rattle.table.specs.Table.{transactions};
ghost use Rattle.row.specs.Row.{transaction_cells, task_cells, in_all_cell, period_cell, modes_cell, first_cell, has_cell, offset_cell, jitter_cell, blocking_cell, deadline_cell, priority_cell, owner_cell, table_of, head_cell, body_cell, time_cell};

use super::kinds::{Table, Task, Transaction};

impl Table {
    // One cell, by its place in the row.
    pub fn cell(row: &[u32], at: usize) -> u32
        ensures { result ≡ get_or row.now at 0 }
    {
        row.get(at).copied().unwrap_or(0)
    }

    #[tactic(auto, unfolding(crate::specs::Row::table_of))]
    pub fn edition(row: &[u32]) -> u32
        ensures { result ≡ (table_of row.now).edition }
    {
        Table::cell(row, Table::EDITION_CELL)
    }

    #[tactic(auto, unfolding(crate::specs::Row::table_of))]
    pub fn frame(row: &[u32]) -> u32
        ensures { result ≡ (table_of row.now).frame }
    {
        Table::cell(row, Table::FRAME_CELL)
    }

    pub fn transactions(row: &[u32]) -> u32
        ensures { result ≡ transactions (table_of row.now) }
    {
        Table::cell(row, Table::COUNT_CELL)
    }

    // How many tasks the row says that there are in all.
    pub fn in_all(row: &[u32]) -> u32
        ensures { result ≡ get_or row.now in_all_cell 0 }
    {
        Table::cell(row, Table::IN_ALL_CELL)
    }

    // A cell of transaction u.
    #[tactic(auto, using(std::proofs::lemmas::Bool::Decides::nat_tests), unfolding(crate::specs::Row::head_cell))]
    fn head_cell(row: &[u32], u: usize, i: usize) -> u32
        requires { i < transaction_cells }
        ensures { result ≡ head_cell row.now u i }
    {
        if u < Table::TRANSACTIONS {
            Table::cell(row, Table::HEADER_CELLS + u * Transaction::CELLS + i)
        } else {
            0
        }
    }

    pub fn period(row: &[u32], u: usize) -> u32
        ensures { result ≡ head_cell row.now u period_cell }
    {
        Table::head_cell(row, u, Transaction::PERIOD_CELL)
    }

    pub fn modes(row: &[u32], u: usize) -> u32
        ensures { result ≡ head_cell row.now u modes_cell }
    {
        Table::head_cell(row, u, Transaction::MODES_CELL)
    }

    // The number that the row says the first task of transaction u has.
    pub fn first(row: &[u32], u: usize) -> u32
        ensures { result ≡ head_cell row.now u first_cell }
    {
        Table::head_cell(row, u, Transaction::FIRST_CELL)
    }

    pub fn tasks(row: &[u32], u: usize) -> u32
        ensures { result ≡ head_cell row.now u has_cell }
    {
        Table::head_cell(row, u, Transaction::TASKS_CELL)
    }

    // A cell of the task with number k.
    #[tactic(auto, using(std::proofs::lemmas::Bool::Decides::nat_tests), unfolding(crate::specs::Row::body_cell))]
    fn body_cell(row: &[u32], k: usize, i: usize) -> u32
        requires { i < task_cells }
        ensures { result ≡ body_cell row.now k i }
    {
        if k < Table::TASKS {
            Table::cell(row, Table::TASKS_CELL + k * Task::CELLS + i)
        } else {
            0
        }
    }

    pub fn offset(row: &[u32], k: usize) -> u32
        ensures { result ≡ body_cell row.now k offset_cell }
    {
        Table::body_cell(row, k, Task::OFFSET_CELL)
    }

    pub fn jitter(row: &[u32], k: usize) -> u32
        ensures { result ≡ body_cell row.now k jitter_cell }
    {
        Table::body_cell(row, k, Task::JITTER_CELL)
    }

    pub fn blocking(row: &[u32], k: usize) -> u32
        ensures { result ≡ body_cell row.now k blocking_cell }
    {
        Table::body_cell(row, k, Task::BLOCKING_CELL)
    }

    pub fn deadline(row: &[u32], k: usize) -> u32
        ensures { result ≡ body_cell row.now k deadline_cell }
    {
        Table::body_cell(row, k, Task::DEADLINE_CELL)
    }

    pub fn priority(row: &[u32], k: usize) -> u32
        ensures { result ≡ body_cell row.now k priority_cell }
    {
        Table::body_cell(row, k, Task::PRIORITY_CELL)
    }

    // The transaction that the row says the task is of.
    pub fn owner(row: &[u32], k: usize) -> u32
        ensures { result ≡ body_cell row.now k owner_cell }
    {
        Table::body_cell(row, k, Task::OWNER_CELL)
    }

    // The time of the task with number k in mode m.
    #[tactic(auto, using(std::proofs::lemmas::Bool::Decides::nat_tests), unfolding(crate::specs::Row::time_cell))]
    pub fn time(row: &[u32], k: usize, m: usize) -> u32
        ensures { result ≡ time_cell row.now k m }
    {
        if m < Transaction::MODES {
            Table::body_cell(row, k, Task::TIMES_CELL + m)
        } else {
            0
        }
    }
}
