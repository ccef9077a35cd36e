// The plain jitter analysis of source document 003 beside document 01's: the response of one task of an image, and the linear
// approximation of what it requests, each also for a host in C. Of an image it knows what `image::read_into` promises; of document 01's
// answers it knows only how a number and a place are told to C.
#![tactic(auto)]

ghost use Rattle.std.specs.Prelude.{◌≡◌, ◌<◌, ◌^◌};
ghost use Rattle.row.specs.Row.{table_of, RowOfTable};
ghost use Rattle.jitter.specs.Plain.{Single};
ghost use Rattle.beside.specs.Lent.{Shows};
ghost use Rattle.told.specs.Told.{paired};
ghost use Rattle.beside.specs.declared.Unanswered.TheVariants.{Refused};
ghost use Rattle.beside.specs.Told.{unanswered_number, unanswered_place, Opens, RespondsFrom, Responds, ApproximatesFrom, Approximates, TellsResponse, TellsApproximation};

use refusals::{Fault, PlainRefusal, Refusal};
use row::Table;

mod completion;
mod reads;
mod requests;

use reads::Alone;

// Why there is no answer.
#[derive(Clone, Copy, PartialEq, Eq)]
pub enum Unanswered {
    // The table is refused, or there is no such task.
    Refused(Fault),
    // The plain analysis gives none.
    Unfit(PlainRefusal),
}

impl From<Fault> for Unanswered {
    ghost from_gives = { λ fault r. r ≡ Refused fault };

    fn from(fault: Fault) -> Unanswered {
        Unanswered::Refused(fault)
    }
}

impl Unanswered {
    // For a host in C: its number × 2^32 + its place.
    fn told(self) -> u64
        requires { unanswered_place self < 2 ^ 32 }
        ensures { result ≡ paired (unanswered_number self) (unanswered_place self) }
    {
        match self {
            Unanswered::Refused(why) => told::pair(why.refusal.number(), why.place as u32),
            Unanswered::Unfit(refusal) => told::pair(refusal.number(), 0),
        }
    }
}

// Whether each transaction has one task and one mode.
fn is_single(row: &[u32; Table::CELLS]) -> bool
    requires { RowOfTable row.now }
    ensures { Shows (Single (table_of row.now)) result }
{
    for i in 0..Table::transactions(row) as usize {
        if Table::tasks(row, i) != 1 || Table::modes(row, i) != 1 {
            return false;
        }
    }
    true
}

// The task, of a table with one task and one mode in each transaction, which is read into the row.
fn open<'a>(
    image: &[u8],
    task: u32,
    row: &'a mut [u32; Table::CELLS],
) -> Result<Alone<'a>, Unanswered>
    ensures { Opens image.now task result }
{
    image::read_into(image, row)?;
    if Table::in_all(&*row) <= task {
        return Err(Unanswered::Refused(Fault {
            refusal: Refusal::NoTask,
            place: 0,
        }));
    }
    if !is_single(&*row) {
        return Err(Unanswered::Unfit(PlainRefusal::NotSingle));
    }
    Ok(Alone {
        row,
        u: task as usize,
    })
}

// The response of such a task: the completion plus the jitter.
fn response_of(task: Alone) -> Result<u32, Unanswered>
    ensures { RespondsFrom (table_of task.entry.row.now) task.entry.u result }
{
    match completion::search(task) {
        Some(t) => Ok(t as u32 + task.jitter()),
        None => Err(Unanswered::Unfit(PlainRefusal::NoCompletion)),
    }
}

// The plain response of one task, in ticks.
pub fn plain(image: &[u8], task: u32) -> Result<u32, Unanswered>
    ensures { Responds image.now task result }
{
    let mut row = [0u32; Table::CELLS];
    let task = open(image, task, &mut row)?;
    response_of(task)
}

// The approximation of what such a task requests.
fn approximation_of(task: Alone, k: u32, t: u32) -> Result<u64, Unanswered>
    ensures { ApproximatesFrom (table_of task.entry.row.now) task.entry.u k t result }
{
    if k == 0 || Table::horizon() < t {
        return Err(Unanswered::Unfit(PlainRefusal::OutOfRange));
    }
    Ok(task.approximate(k, t))
}

// The approximation of what one task requests by t, in T-ths of a tick, T being the task's period.
pub fn approximate(image: &[u8], task: u32, k: u32, t: u32) -> Result<u64, Unanswered>
    ensures { Approximates image.now task k t result }
{
    let mut row = [0u32; Table::CELLS];
    let task = open(image, task, &mut row)?;
    approximation_of(task, k, t)
}

// For a host in C: the response, or number × 2^32 + place.
pub fn tell_plain(image: &[u8], task: u32) -> u64
    ensures { TellsResponse image.now task result }
{
    match plain(image, task) {
        Ok(ticks) => told::pair(0, ticks),
        Err(why) => why.told(),
    }
}

// And the approximation, which needs more than 32 bits, into the cell; the result is 0, or number × 2^32 + place, and then the cell stays
// as it was.
pub fn tell_approximate(image: &[u8], task: u32, k: u32, t: u32, cell: &mut [u64; 1]) -> u64
    ensures { TellsApproximation image.now task k t cell.old cell.new result }
{
    match approximate(image, task, k, t) {
        Ok(ths) => {
            *cell = [ths];
            0
        }
        Err(why) => why.told(),
    }
}
