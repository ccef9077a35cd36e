// The archive for C: the library's functions for a host or an editor in C, under their names and with their clauses. A crate is a library or
// an archive, and not both; this one is the archive.
#![tactic(auto)]

ghost use Rattle.row.specs.Row.{table_of};
ghost use Rattle.told.specs.Told.{Responds};
ghost use Rattle.editor.specs.Editor.{Takes, Gives};
ghost use Rattle.parts.specs.Parts.{Makes, ChargesOne, HasPart};
ghost use Rattle.asked.specs.Asked.{TellsFilled, TellsMade, TellsPart, is_whole};
ghost use Rattle.beside.specs.Told.{TellsResponse, TellsApproximation};

use parts::{Charge, Parts};
use row::Table;

// For the emulator's C host: code × 2^32 + bound of one task; for 1 to 11, 13 and 14 that number × 2^32 + its place.
#[unsafe(no_mangle)]
pub extern "C" fn sumpcandle_response(image: &[u8], task: u32, budget: u32) -> u64
    ensures { Responds image.now task budget result }
{
    sumpcandle::sumpcandle_response(image, task, budget)
}

// And the cells of every task, with who gave its bound. The result is 0; for 1 to 12 and 14 that number × 2^32 + its place.
#[unsafe(no_mangle)]
pub extern "C" fn sumpcandle_cells(image: &[u8], budget: u32, cells: &mut [u32]) -> u64
    ensures { TellsFilled image.now budget cells.old cells.new result }
{
    sumpcandle::sumpcandle_cells(image, budget, cells)
}

// For an editor in C: the table of an image into the cells, which stay as they were where the image is refused. The result is
// number × 2^32 + place, 0 where the image is accepted.
#[unsafe(no_mangle)]
pub extern "C" fn sumpcandle_read(image: &[u8], cells: &mut [u32; Table::CELLS]) -> u64
    ensures { Takes image.now cells.old cells.new result }
{
    sumpcandle::sumpcandle_read(image, cells)
}

// And the table in the cells, whatever numbers they hold, as an image into the buffer, which stays as it was where the table or the
// room is refused. The result is the image's length; for 2 to 9, 14, 29 and 30 that number × 2^32 + its place.
#[unsafe(no_mangle)]
pub extern "C" fn sumpcandle_write(cells: &[u32; Table::CELLS], buffer: &mut [u8]) -> u64
    ensures { Gives (table_of cells.now) buffer.old buffer.new result }
{
    sumpcandle::sumpcandle_write(cells, buffer)
}

// For the emulator's C host, who pushed one task: what its bound is made of, into the cells. The result is the place of the answer's case,
// `Parts::GIVEN` or `Parts::NO_BOUND`; for 1 to 11, 13 and 14 that number × 2^32 + its place. But where they are given, the cells stay as they
// were.
#[unsafe(no_mangle)]
pub extern "C" fn sumpcandle_parts(
    image: &[u8],
    task: u32,
    budget: u32,
    cells: &mut [i64; Parts::COUNT],
) -> u64
    ensures { TellsMade (Makes image.now task budget) cells.old cells.new result }
{
    sumpcandle::sumpcandle_parts(image, task, budget, cells)
}

// The part of one transaction in that bound: what it imposes until the completion, with the mode and the candidate. The result is the
// case of `Part`, in the same way.
#[unsafe(no_mangle)]
pub extern "C" fn sumpcandle_part(
    image: &[u8],
    task: u32,
    budget: u32,
    transaction: u32,
    cells: &mut [u64; Charge::COUNT],
) -> u64
    ensures { TellsPart (HasPart image.now task budget transaction) cells.old cells.new result }
{
    sumpcandle::sumpcandle_part(image, task, budget, transaction, cells)
}

// And its greatest charge by any t: what it imposes where `whole` is 0, else what it releases. There `Part::NO_BOUND` is never given.
#[unsafe(no_mangle)]
pub extern "C" fn sumpcandle_charge(
    image: &[u8],
    task: u32,
    transaction: u32,
    whole: u32,
    t: u32,
    cells: &mut [u64; Charge::COUNT],
) -> u64
    ensures { TellsPart (ChargesOne image.now task transaction (is_whole whole) t) cells.old cells.new result }
{
    sumpcandle::sumpcandle_charge(image, task, transaction, whole, t, cells)
}

// The plain jitter analysis of one task: its response in ticks. The result is that; for 1 to 11, 13, 14, 31 and 32 that number × 2^32 + its
// place.
#[unsafe(no_mangle)]
pub extern "C" fn sumpcandle_plain(image: &[u8], task: u32) -> u64
    ensures { TellsResponse image.now task result }
{
    sumpcandle::sumpcandle_plain(image, task)
}

// And the linear approximation of what it requests by t, exact up to k − 1 periods, in T-ths of a tick, into the cell. The result is 0; for 1
// to 11, 13, 14, 31 and 33 that number × 2^32 + its place, and then the cell stays as it was.
#[unsafe(no_mangle)]
pub extern "C" fn sumpcandle_approximate(
    image: &[u8],
    task: u32,
    k: u32,
    t: u32,
    cell: &mut [u64; 1],
) -> u64
    ensures { TellsApproximation image.now task k t cell.old cell.new result }
{
    sumpcandle::sumpcandle_approximate(image, task, k, t, cell)
}
