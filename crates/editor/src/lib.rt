// A table for an editor in C: read from an image into lent cells, and written from them, each with one number for the answer. It
// knows what reading and writing promise, and not how they are done.
#![tactic(auto)]

ghost use Rattle.row.specs.Row.{table_of};
ghost use Rattle.editor.specs.Editor.{Takes, Gives};

use row::Table;

// The table of an image, into the cells: number × 2^32 + place of the image's answer.
pub fn read(image: &[u8], cells: &mut [u32; Table::CELLS]) -> u64
    ensures { Takes image.now cells.old cells.new result }
{
    told::tell(&image::read_into(image, cells))
}

// The image of the table in the cells, into the buffer: number × 2^32 + place, or the image's length.
pub fn write(cells: &[u32; Table::CELLS], buffer: &mut [u8]) -> u64
    ensures { Gives (table_of cells.now) buffer.old buffer.new result }
{
    told::tell(&writer::write(cells, buffer))
}
