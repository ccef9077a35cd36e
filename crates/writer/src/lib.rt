// Writing a table: any row of numbers gives the image of document 01, or a refusal by its number and the place that the field would
// have had. It knows a table's fields and bits; it knows nothing of how an image is read.
#![tactic(auto)]

ghost use Rattle.std.specs.Prelude.{◌≡◌};
ghost use Rattle.row.specs.Row.{table_of};
ghost use Rattle.writer.specs.Write.{Writes};

use refusals::{Case, Fault, Refusal, check};

mod lay;
mod parts;
mod scan;

// An image that was written: how many bytes it has, which are the buffer's first.
#[derive(Clone, Copy, PartialEq, Eq)]
pub struct Written {
    pub bytes: usize,
}

// What became of a table that was to be written; where it is refused, every byte of the buffer stays as it was.
pub type Writing = Result<Written, Fault>;

// In the place's place stands the image's length.
impl Case for Written {
    ghost case_of = { λ w. w.bytes };

    fn case(&self) -> usize {
        self.bytes
    }
}

// Writes the table that a row of numbers holds, whatever the numbers are.
pub fn write(row: &[u32], buffer: &mut [u8]) -> Writing
    ensures { Writes (table_of row.now) buffer.old buffer.new result }
{
    scan::first_fault(row)?;
    let bytes = lay::size(row);
    check(bytes <= buffer.len(), Refusal::BufferShort, 0)?;
    lay::lay(row, buffer);
    Ok(Written { bytes })
}
