// What a caller is told of one task by one walk: its cells, what its bound is made of, and in lent cells what each other transaction
// charges in it and how the tasks of its own transaction stand from the critical instant on. How an answer is found is not known here.
#![tactic(auto)]

ghost use Rattle.std.specs.Prelude.{◌≡◌};
ghost use Rattle.table.specs.Limits.{transactions_most, tasks_most};
ghost use Rattle.account.specs.Account.{charges_cell, shares_cell, charge_cells, charge_cells_of, share_cells, stored};

use parts::{Charge, Part, Parts};
use refusals::Fault;
use row::{Table, Transaction};
use told::TaskCells;

// What one task of its own transaction charges the task under analysis, when the candidate that gives the bound sets the critical
// instant.
#[derive(Clone, Copy)]
pub struct Share {
    // Ticks from the instant to its first later arrival.
    pub phase: u32,
    // Its jobs held back to the instant.
    pub held: u32,
    // What it charges until the completion: 0 where it is no rival.
    pub ticks: u64,
}

// What is told of one task: its cells, and what its bound is made of, where it has one; where it has none, and where it is refused, every
// lent cell stays as it was.
#[derive(Clone, Copy)]
pub struct Account {
    pub cells: TaskCells,
    pub parts: Option<Parts>,
}

impl Account {
    // Where the lent cells begin: `Charge::COUNT` for each transaction of a table, and behind them `Share::COUNT` for each place in the
    // task's own transaction, in the order of the fields. Those of a transaction without rivals, of the task's own transaction, and of
    // transactions and places that the table does not have, stay as they were.
    pub const CHARGES: usize = 0;

    pub const SHARES: usize = Account::CHARGES + Charge::COUNT * Table::TRANSACTIONS;

    pub const CELLS: usize = Account::SHARES + Share::COUNT * Transaction::TASKS;

    // Stores what transaction i charges, where it does; else leaves every cell.
    pub fn put_charge(part: Result<Part, Fault>, cells: &mut [u64; Account::CELLS], i: usize)
        ensures { cells.new ≡ stored charges_cell transactions_most i (charge_cells_of part) cells.old }
    {
        if let Ok(part) = part {
            Account::put_part(part, cells, i);
        }
    }

    fn put_part(part: Part, cells: &mut [u64; Account::CELLS], i: usize)
        ensures { cells.new ≡ stored charges_cell transactions_most i (charge_cells part) cells.old }
    {
        if i < Table::TRANSACTIONS {
            let Part::Charged(charge) = part else {
                return;
            };
            let at = Account::CHARGES + Charge::COUNT * i;
            cells[at..at + Charge::COUNT].copy_from_slice(&charge.listed());
        }
    }
}

impl Share {
    // How many cells it takes, in the order of the fields.
    pub const COUNT: usize = 3;

    // Each in its place.
    fn listed(self) -> [u64; Share::COUNT]
        ensures { result ≡ share_cells self }
    {
        [u64::from(self.phase), u64::from(self.held), self.ticks]
    }

    // Stores it as that of the task at place j of its transaction, where a transaction has such a place.
    pub fn put(self, cells: &mut [u64; Account::CELLS], j: usize)
        ensures { cells.new ≡ stored shares_cell tasks_most j (share_cells self) cells.old }
    {
        if j < Transaction::TASKS {
            let at = Account::SHARES + Share::COUNT * j;
            cells[at..at + Share::COUNT].copy_from_slice(&self.listed());
        }
    }
}
