// What the emulator's host, an editor and the programs call: the cells of every task of an image, the C host's number for one task,
// who pushed it, a table read into cells and written from them, and the plain analysis beside it.
// Each function is one call into the crates below, where what it promises is found, or one of theirs, passed on: `account`, all that is
// told of one task, by one walk; `parts`, what the bound of one task is made of; `part`, the part of one transaction in it; `charge`, what
// one transaction charges a task by t; `plain`, the response of one task by the plain jitter analysis; `approximate`, the linear
// approximation of what it requests by t.
#![tactic(auto)]

ghost use Rattle.row.specs.Row.{table_of};
ghost use Rattle.told.specs.Told.{Fills, Responds};
ghost use Rattle.editor.specs.Editor.{Takes, Gives};
ghost use Rattle.parts.specs.Parts.{Makes, ChargesOne, HasPart};
ghost use Rattle.asked.specs.Asked.{TellsFilled, TellsMade, TellsPart, is_whole};
ghost use Rattle.beside.specs.Told.{TellsResponse, TellsApproximation};

pub use answers::{account, charge, parts};
pub use asked::part;
pub use beside::{approximate, plain};
use parts::{Charge, Parts};
use refusals::Fault;
use row::Table;
pub use told::{Filled, TaskCells};

// Enough for the tasks of any table.
pub const CELLS: usize = TaskCells::COUNT * Table::TASKS;

// The cells of every task of an image, under a budget that holds for each task afresh.
pub fn cells(image: &[u8], budget: u32, cells: &mut [u32]) -> Result<Filled, Fault>
    ensures { Fills image.now budget cells.old cells.new result }
{
    answers::cells(image, budget, cells)
}

// For the emulator's C host: code × 2^32 + bound of one task; for 1 to 11, 13 and 14 that number × 2^32 + its place.
pub fn sumpcandle_response(image: &[u8], task: u32, budget: u32) -> u64
    ensures { Responds image.now task budget result }
{
    answers::response(image, task, budget)
}

// And the cells of every task, with who gave its bound. The result is 0; for 1 to 12 and 14 that number × 2^32 + its place.
pub fn sumpcandle_cells(image: &[u8], budget: u32, cells: &mut [u32]) -> u64
    ensures { TellsFilled image.now budget cells.old cells.new result }
{
    asked::tell_cells(image, budget, cells)
}

// For an editor in C: the table of an image into the cells, which stay as they were where the image is refused. The result is
// number × 2^32 + place, 0 where the image is accepted.
pub fn sumpcandle_read(image: &[u8], cells: &mut [u32; Table::CELLS]) -> u64
    ensures { Takes image.now cells.old cells.new result }
{
    editor::read(image, cells)
}

// And the table in the cells, whatever numbers they hold, as an image into the buffer, which stays as it was where the table or the
// room is refused. The result is the image's length; for 2 to 9, 14, 29 and 30 that number × 2^32 + its place.
pub fn sumpcandle_write(cells: &[u32; Table::CELLS], buffer: &mut [u8]) -> u64
    ensures { Gives (table_of cells.now) buffer.old buffer.new result }
{
    editor::write(cells, buffer)
}

// For the emulator's C host, who pushed one task: what its bound is made of, into the cells. The result is the place of the answer's case,
// `Parts::GIVEN` or `Parts::NO_BOUND`; for 1 to 11, 13 and 14 that number × 2^32 + its place. But where they are given, the cells stay as they
// were.
pub fn sumpcandle_parts(
    image: &[u8],
    task: u32,
    budget: u32,
    cells: &mut [i64; Parts::COUNT],
) -> u64
    ensures { TellsMade (Makes image.now task budget) cells.old cells.new result }
{
    asked::tell_parts(image, task, budget, cells)
}

// The part of one transaction in that bound: what it imposes until the completion, with the mode and the candidate. The result is the
// case of `Part`, in the same way.
pub fn sumpcandle_part(
    image: &[u8],
    task: u32,
    budget: u32,
    transaction: u32,
    cells: &mut [u64; Charge::COUNT],
) -> u64
    ensures { TellsPart (HasPart image.now task budget transaction) cells.old cells.new result }
{
    asked::tell_part(image, task, budget, transaction, cells)
}

// And its greatest charge by any t: what it imposes where `whole` is 0, else what it releases. There `Part::NO_BOUND` is never given.
pub fn sumpcandle_charge(
    image: &[u8],
    task: u32,
    transaction: u32,
    whole: u32,
    t: u32,
    cells: &mut [u64; Charge::COUNT],
) -> u64
    ensures { TellsPart (ChargesOne image.now task transaction (is_whole whole) t) cells.old cells.new result }
{
    asked::tell_charge(image, task, transaction, whole, t, cells)
}

// The plain jitter analysis of one task: its response in ticks. The result is that; for 1 to 11, 13, 14, 31 and 32 that number × 2^32 + its
// place.
pub fn sumpcandle_plain(image: &[u8], task: u32) -> u64
    ensures { TellsResponse image.now task result }
{
    beside::tell_plain(image, task)
}

// And the linear approximation of what it requests by t, exact up to k − 1 periods, in T-ths of a tick, into the cell. The result is 0; for 1
// to 11, 13, 14, 31 and 33 that number × 2^32 + its place, and then the cell stays as it was.
pub fn sumpcandle_approximate(image: &[u8], task: u32, k: u32, t: u32, cell: &mut [u64; 1]) -> u64
    ensures { TellsApproximation image.now task k t cell.old cell.new result }
{
    beside::tell_approximate(image, task, k, t, cell)
}
