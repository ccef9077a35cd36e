// Worked tables as cells: those that are lent before and after a call, with budgets and several numbers of cells. Standard
// input is case after case: budget, 4 bytes most significant first; cells that are lent, 2 bytes; length of the image, 2
// bytes; the image. A line for each: the answer's number and place, the number for the C host of the first task, and every
// cell, which holds 7 before the call.
#![tactic(auto)]

use refusals::Numbered;
use std::fmt::Write;
use std::io::{Print, Read, Stdout};
use std::{fmt, io};

// More bytes than two say.
const IMAGE: usize = 65_536;

// Some more than any table needs.
const MOST: usize = sumpcandle::CELLS + 8;

// Standard output. What can't be written is lost, and no writer fails.
#[derive(Drop)]
struct Out(Stdout);

impl fmt::Write for Out {
    fn write_str(&mut self, text: &str) -> fmt::Result {
        let _ = self.0.write_all(text.as_bytes());
        Ok(())
    }
}

fn show(out: &mut Out, cells: &[u32]) -> fmt::Result {
    for cell in cells {
        write!(out, "{cell} ")?;
    }
    writeln!(out)
}

fn told(out: &mut Out, image: &[u8], budget: u32, cells: &mut [u32]) -> fmt::Result {
    let answer = sumpcandle::cells(image, budget, cells);
    let response = sumpcandle::sumpcandle_response(image, 0, budget);
    write!(out, "{} {} {response} ", answer.number(), answer.place())?;
    show(out, cells)
}

// One case; an error at the end of the input.
fn case(rt: &HostRuntime, image: &mut [u8; IMAGE]) -> io::Result<()> {
    let mut from = rt.stdin();
    // by one read, as in `many`
    let mut head = [0u8; 8];
    from.read_exact(&mut head)?;
    let budget = u32::from_be_bytes([head[0], head[1], head[2], head[3]]);
    let count = usize::from(u16::from_be_bytes([head[4], head[5]]));
    let length = usize::from(u16::from_be_bytes([head[6], head[7]]));
    let image = &mut image[..length];
    from.read_exact(image)?;
    let mut cells = [7u32; MOST];
    if count <= MOST {
        let _ = told(&mut Out(rt.stdout()), image, budget, &mut cells[..count]);
    }
    Ok(())
}

fn main(rt: HostRuntime) {
    let mut image = [0u8; IMAGE];
    for _ in 0..65_536 {
        if case(&rt, &mut image).is_err() {
            break;
        }
    }
}
