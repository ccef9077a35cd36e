// One image from standard input, and under which budget it is asked. No contract can say which bytes a read gives, or that it
// failed; what is promised is that the count lies within the buffer, and that nothing fails where there is no room to read.
#![tactic(auto)]

ghost use Rattle.std.specs.Prelude.{length};
ghost use Rattle.input.specs.Input.{Within};

use image::Reading;
use std::io;
use std::io::{Read, Stdin};

// One byte more than the longest image, so that a longer input is seen to be too long.
pub const BUFFER: usize = Reading::LONGEST + 1;

// The programs' budget. The C header has it too, held to this one by tools/header.
pub const BUDGET: u32 = 100_000_000;

// Fills the buffer from standard input, and says how many bytes stand in it, or why the reading failed.
pub fn take_in(from: &mut Stdin, buffer: &mut [u8]) -> io::Result<usize>
    ensures { Within (length buffer.new) result }
{
    take_from(from, buffer)
}

// Fills the buffer, to its end or to the end of what a reader gives.
pub fn take_from<R: Read>(from: &mut R, buffer: &mut [u8]) -> io::Result<usize>
    ensures { Within (length buffer.new) result }
{
    // no `for`: a turn goes on by as many bytes as its read gave
    let mut n: usize = 0;
    while n < buffer.len() {
        let more = from.read(&mut buffer[n..])?;
        if more == 0 {
            break;
        }
        n += more;
    }
    Ok(n)
}
