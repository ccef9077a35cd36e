// Reading an image: any bytes give a table or a refusal, by document 01's number and place. It knows bits, places and
// the limits of a table; it knows nothing of interference, of bounds or of what a table is read for.
#![tactic(auto)]

ghost use Rattle.std.specs.Prelude.{◌≡◌};
ghost use Rattle.format.specs.Fault.{image_fault};
ghost use Rattle.format.specs.Places.{longest_image};
ghost use Rattle.image.specs.Read.{row_for, row_over, front_fault, front_over};

pub use due::{Due, due_at};
use refusals::{Answer, Fault, Refusal};
use row::{Table, Task, Transaction};

mod due;
mod fill;
mod parts;
mod scan;

// What is said of an image, and beside it the table: the empty one where the image is refused, which the clause `table` of `read` says, so
// that it is no `Result<Table, Fault>`.
#[derive(Clone, Copy)]
pub struct Reading {
    pub answer: Answer,
    pub table: Table,
}

impl Reading {
    // The longest image that is accepted, in bytes: every count at its limit.
    pub const LONGEST: usize = (Table::FIRST_AT
        + Table::TRANSACTIONS * Transaction::WIDTH
        + Table::TASKS * (Task::TIMES_AT + Transaction::MODES * Task::TIME_WIDTH)
        + 7)
        / 8;

    pub fn longest() -> usize
        ensures { result ≡ longest_image }
    {
        Reading::LONGEST
    }
}

pub fn read(image: &[u8]) -> Reading
    ensures answer { result.answer ≡ image_fault image.now }
    ensures table { result.table.cells ≡ row_for (image_fault image.now) image.now }
{
    let mut table = Table::empty();
    let answer = read_into(image, &mut table.cells);
    Reading { answer, table }
}

// The same into lent cells, which stay as they were where the image is refused.
pub fn read_into(image: &[u8], cells: &mut [u32; Table::CELLS]) -> Answer
    ensures value { result ≡ image_fault image.now }
    ensures cells_after { cells.new ≡ row_over (image_fault image.now) image.now cells.old }
{
    scan::first_fault(image)?;
    *cells = [0u32; Table::CELLS];
    fill::fill(image, cells);
    Ok(())
}

// The same into the front of lent cells: those of the table's fields are stored, and the others stay as they were. Cells
// fewer than a row has are refused after all faults of the image.
#[tactic(auto, using(std::proofs::lemmas::Bool::Decides::nat_tests), unfolding(refusals::proofs::Findings::joining, refusals::specs::Answer::checked))]
pub fn read_in_front(image: &[u8], cells: &mut [u32]) -> Answer
    ensures value { result ≡ front_fault image.now cells.old }
    ensures cells_after { cells.new ≡ front_over (front_fault image.now cells.old) image.now cells.old }
{
    scan::first_fault(image)?;
    let Some(row) = cells.first_chunk_mut() else {
        return Err(Fault {
            refusal: Refusal::NoRoom,
            place: 0,
        });
    };
    fill::fill(image, row);
    Ok(())
}
