// What a page is made of: what the library told of each task, and what stands beside it. Who prints decides nothing.
use super::bars::Scale;
use account::Account;
use page::Sheet;
use parts::{Charge, Parts};
use row::{Table, Transaction};
use std::io;
use told::{Code, TaskCells};

// Above every bound and every deadline.
const FAR: u64 = 4_294_967_296;

// What another transaction charges a task: the ticks, and the mode and the candidate that give them.
#[derive(Clone, Copy)]
pub(crate) struct Charged {
    pub(crate) ticks: u64,
    pub(crate) mode: u64,
    pub(crate) candidate: usize,
}

// How a task of its own transaction stands from the critical instant on: its phase, its jobs held back, and what it charges.
#[derive(Clone, Copy)]
pub(crate) struct Lane {
    pub(crate) phase: u64,
    pub(crate) held: u64,
    pub(crate) ticks: u64,
}

// A bound: who gave it, and what it is made of.
#[derive(Clone, Copy)]
pub(crate) struct Bound {
    pub(crate) ticks: u64,
    pub(crate) mode: usize,
    pub(crate) candidate: usize,
    // How many jobs of the task there are up to the one that gives it.
    pub(crate) count: u64,
    pub(crate) completion: u64,
    pub(crate) offset: u64,
    pub(crate) blocking: u64,
    pub(crate) jobs: u64,
    pub(crate) rivals: u64,
    pub(crate) charges: [Charged; Table::TRANSACTIONS],
    pub(crate) lanes: [Lane; Transaction::TASKS],
}

impl Bound {
    pub(crate) fn new(c: TaskCells, parts: Parts, cells: &[u64; Account::CELLS]) -> Bound {
        Bound {
            ticks: u64::from(c.bound),
            mode: c.mode as usize,
            candidate: c.candidate as usize,
            count: u64::from(c.job) + 1,
            completion: u64::from(parts.completion),
            offset: u64::from(parts.offset),
            blocking: u64::from(parts.blocking),
            jobs: u64::from(parts.jobs),
            rivals: u64::from(parts.rivals),
            charges: charges(cells),
            lanes: lanes(cells),
        }
    }
}

fn charges(cells: &[u64; Account::CELLS]) -> [Charged; Table::TRANSACTIONS] {
    let none = Charged {
        ticks: 0,
        mode: 0,
        candidate: 0,
    };
    let mut charges = [none; Table::TRANSACTIONS];
    for i in 0..Table::TRANSACTIONS {
        let at = Account::CHARGES + Charge::COUNT * i;
        charges[i] = Charged {
            ticks: cells[at],
            mode: cells[at + 1],
            candidate: cells[at + 2] as usize,
        };
    }
    charges
}

fn lanes(cells: &[u64; Account::CELLS]) -> [Lane; Transaction::TASKS] {
    let none = Lane {
        phase: 0,
        held: 0,
        ticks: 0,
    };
    let mut lanes = [none; Transaction::TASKS];
    for j in 0..Transaction::TASKS {
        let at = Account::SHARES + account::Share::COUNT * j;
        lanes[j] = Lane {
            phase: cells[at],
            held: cells[at + 1],
            ticks: cells[at + 2],
        };
    }
    lanes
}

// A task.
#[derive(Clone, Copy)]
pub(crate) struct Fact<'a> {
    pub(crate) number: usize,
    // Any bytes, none where it has no name.
    pub(crate) name: &'a [u8],
    pub(crate) owner: usize,
    pub(crate) deadline: u64,
    pub(crate) code: Code,
    pub(crate) bound: Option<Bound>,
    // Its bound in the table that this one is compared with.
    pub(crate) old: Option<u64>,
}

impl Fact<'_> {
    // What is known before the library is asked.
    pub(crate) fn unknown() -> Self {
        Fact {
            number: 0,
            name: b"",
            owner: 0,
            deadline: 0,
            code: Code::Kept,
            bound: None,
            old: None,
        }
    }

    // Whether it is not shown to be in time.
    pub(crate) fn is_open(&self) -> bool {
        self.code != Code::Kept
    }

    pub(crate) fn ticks(&self) -> Option<u64> {
        self.bound.as_ref().map(|bound| bound.ticks)
    }

    // By which tasks are put in order: what is to spare, and 0 without a bound.
    pub(crate) fn spare(&self) -> u64 {
        match self.ticks() {
            Some(ticks) => FAR.saturating_add(self.deadline).saturating_sub(ticks),
            None => 0,
        }
    }
}

// The name of a table, and the number that tells it apart from the others of its page.
#[derive(Clone, Copy)]
pub(crate) struct Title<'a> {
    pub(crate) key: u64,
    pub(crate) name: &'a [u8],
}

// A table whose tasks are told: on which scale, and whether their bounds are compared.
#[derive(Clone, Copy)]
pub(crate) struct Told<'a> {
    pub(crate) key: u64,
    pub(crate) table: &'a [u32],
    pub(crate) tasks: &'a [Fact<'a>],
    pub(crate) scale: Scale,
    pub(crate) compared: bool,
}

impl Told<'_> {
    // A task by its number, and its name where it has one.
    pub(crate) fn named(&self, sheet: &mut Sheet, k: usize) -> io::Result<()> {
        sheet.fill(b"task @", &[k as u64])?;
        match self.tasks.get(k) {
            Some(task) if !task.name.is_empty() => {
                sheet.put(b" <bdi>")?;
                sheet.escaped(task.name)?;
                sheet.put(b"</bdi>")
            }
            _ => Ok(()),
        }
    }
}
