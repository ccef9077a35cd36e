// Asking the library: the account of each task, once, and what stands beside it.
use super::facts::{Bound, Fact};
use account::Account;
use row::Table;
use std::array;
use sumpcandle::TaskCells;
use told::Code;

fn put_cells(fact: &mut Fact, c: TaskCells) {
    if let Ok(code) = Code::try_from(c.code) {
        fact.code = code;
    }
}

// One task: its account, its deadline and its transaction.
fn one(image: &[u8], table: &[u32], k: u32, fact: &mut Fact, rows: &mut [u32; sumpcandle::CELLS]) {
    fact.number = k as usize;
    fact.deadline = u64::from(Table::deadline(table, fact.number));
    fact.owner = Table::owner(table, fact.number) as usize;
    let mut cells = [0u64; Account::CELLS];
    if let Ok(account) = sumpcandle::account(image, k, input::BUDGET, &mut cells) {
        account.cells.put(rows, fact.number);
        put_cells(fact, account.cells);
        if let Some(parts) = account.parts {
            fact.bound = Some(Bound::new(account.cells, parts, &cells));
        }
    }
}

pub(crate) fn every(
    image: &[u8],
    table: &[u32],
    facts: &mut [Fact],
    rows: &mut [u32; sumpcandle::CELLS],
) {
    for (k, fact) in (0..Table::in_all(table)).zip(facts.iter_mut()) {
        one(image, table, k, fact, rows);
    }
}

// A name for each task, one a line.
pub(crate) fn names<'a>(text: &'a [u8], facts: &mut [Fact<'a>]) {
    for (line, fact) in text.split(|b| *b == b'\n').zip(facts.iter_mut()) {
        fact.name = line;
    }
}

// Whether two tables have as many transactions, and each of them as many tasks.
pub(crate) fn alike(a: &[u32], b: &[u32]) -> bool {
    Table::transactions(a) == Table::transactions(b)
        && (0..Table::TRANSACTIONS).all(|u| Table::tasks(a, u) == Table::tasks(b, u))
}

// The bounds of the table that this one is compared with.
pub(crate) fn old_bounds(rows: &[u32; sumpcandle::CELLS], facts: &mut [Fact]) {
    for (k, fact) in facts.iter_mut().enumerate() {
        fact.old = match TaskCells::of(rows, k) {
            Some(c) if c.bound != TaskCells::NO_BOUND => Some(u64::from(c.bound)),
            _ => None,
        };
    }
}

// The numbers of the tasks in order, least to spare first, in front of the numbers that no task has.
pub(crate) fn order(facts: &[Fact]) -> [usize; Table::TASKS] {
    let mut order: [usize; Table::TASKS] = array::from_fn(|k| k);
    order.sort_unstable_by_key(|k| match facts.get(*k) {
        Some(fact) => (fact.spare(), *k),
        None => (u64::MAX, *k),
    });
    order
}
