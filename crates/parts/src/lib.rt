// What a caller is told of who pushed a task: what its bound is made of, and what one transaction charges it. Every answer is a Result
// over the fault that refuses it; how an answer is found is not known here.
#![tactic(auto)]

ghost use Rattle.std.specs.Prelude.{◌≡◌};
ghost use Rattle.parts.specs.Parts.{parts_listed, made_cells, made_place, charge_listed, part_case, part_cells};

use refusals::{Case, Fault};

// In ticks from the critical instant on: when the job that gives the bound completes, and when it arrived, before the instant
// where it was held back; and what is charged until it completes, beside what the other transactions charge.
#[derive(Clone, Copy)]
pub struct Parts {
    pub completion: u32,
    pub arrival: i64,
    pub offset: u32,
    pub blocking: u32,
    // Of the task's own jobs, up to the one that gives the bound.
    pub jobs: u32,
    // Of the rivals in its own transaction.
    pub rivals: u32,
}

impl Parts {
    // How many cells they take, in the order of the fields.
    pub const COUNT: usize = 6;

    // Where they are given, and where the task has no bound: what the place says of an answer that is no refusal.
    pub const GIVEN: usize = 0;

    pub const NO_BOUND: usize = 1;

    // The place of an answer: what `Numbered` gives too, by these names.
    pub fn place(made: Result<Option<Parts>, Fault>) -> usize
        ensures { result ≡ made_place made }
    {
        match made {
            Ok(Some(_)) => Parts::GIVEN,
            Ok(None) => Parts::NO_BOUND,
            Err(fault) => fault.place,
        }
    }

    // Each in its place.
    fn listed(self) -> [i64; Parts::COUNT]
        ensures { result ≡ parts_listed self }
    {
        [
            i64::from(self.completion),
            self.arrival,
            i64::from(self.offset),
            i64::from(self.blocking),
            i64::from(self.jobs),
            i64::from(self.rivals),
        ]
    }

    // Stores the parts of a bound, where there are any; else leaves every cell.
    pub fn put(made: Result<Option<Parts>, Fault>, cells: &mut [i64; Parts::COUNT])
        ensures { cells.new ≡ made_cells cells.old made }
    {
        if let Ok(Some(parts)) = made {
            *cells = parts.listed();
        }
    }
}

// The greatest charge of a transaction, with the mode and the number of the candidate that give it.
#[derive(Clone, Copy)]
pub struct Charge {
    pub ticks: u64,
    pub mode: u32,
    pub candidate: u32,
}

impl Charge {
    // How many cells they take, in the order of the fields.
    pub const COUNT: usize = 3;

    // Each in its place.
    pub fn listed(self) -> [u64; Charge::COUNT]
        ensures { result ≡ charge_listed self }
    {
        [self.ticks, u64::from(self.mode), u64::from(self.candidate)]
    }
}

// What one transaction charges one task. Of the five cases none is an error, and no two are told alike, so none is an Option's.
#[derive(Clone, Copy)]
pub enum Part {
    // The task has no bound.
    NoBound,
    // It is the task's own transaction.
    Own,
    // There is no transaction of that number.
    NoTransaction,
    // None of its tasks is a rival.
    NoRivals,
    Charged(Charge),
}

impl Case for Part {
    ghost case_of = { part_case };

    fn case(&self) -> usize {
        match self {
            Part::NoBound => Part::NO_BOUND,
            Part::Own => Part::OWN,
            Part::NoTransaction => Part::NO_TRANSACTION,
            Part::NoRivals => Part::NO_RIVALS,
            Part::Charged(_) => Part::GIVEN,
        }
    }
}

impl Part {
    pub const GIVEN: usize = 0;

    pub const NO_BOUND: usize = 1;

    pub const OWN: usize = 2;

    pub const NO_TRANSACTION: usize = 3;

    pub const NO_RIVALS: usize = 4;

    // Stores the charge, its mode and its candidate, where there is one; else leaves every cell.
    pub fn put(part: Result<Part, Fault>, cells: &mut [u64; Charge::COUNT])
        ensures { cells.new ≡ part_cells cells.old part }
    {
        if let Ok(Part::Charged(charge)) = part {
            *cells = charge.listed();
        }
    }
}
