// Answers many images in one run, for comparison with a second program. Standard input is case after case: budget, 4
// bytes most significant first; length of the image, 2 bytes; the image. A line for each: `accepted` and the cells of its tasks,
// or `refused`, number and place. A case that is cut short ends the run.
#![tactic(auto)]

ghost use Rattle.std.specs.Prelude.{◌≤◌};

use refusals::Fault;
use std::fmt::Write;
use std::io::{Print, Read};
use std::{fmt, io};
use sumpcandle::{Filled, TaskCells};

// More bytes than two say.
const IMAGE: usize = 65_536;

// The longest line: `accepted`, a number of at most 10 digits with a space before it for each cell, and its end.
const LINE: usize = 8 + 11 * sumpcandle::CELLS + 1;

// A line is made whole and then written by one call.
#[derive(Drop)]
struct Line {
    bytes: [u8; LINE],
    n: usize,
    ghost within: { n ≤ 8457 },
}

impl Line {
    fn new() -> Line {
        Line {
            bytes: [0; LINE],
            n: 0,
        }
    }

    fn clear(&mut self) {
        self.n = 0;
    }

    fn as_slice(&self) -> &[u8] {
        &self.bytes[..self.n]
    }
}

impl fmt::Write for Line {
    fn write_str(&mut self, s: &str) -> fmt::Result {
        if LINE - self.n < s.len() {
            return Err(fmt::Error);
        }
        let end = self.n + s.len();
        self.bytes[self.n..end].copy_from_slice(s.as_bytes());
        self.n = end;
        Ok(())
    }
}

fn accepted(line: &mut Line, cells: &[u32], tasks: usize) -> fmt::Result {
    write!(line, "accepted")?;
    for task in cells.chunks_exact(TaskCells::COUNT).take(tasks) {
        for cell in task {
            write!(line, " {cell}")?;
        }
    }
    writeln!(line)
}

fn answer(
    rt: &HostRuntime,
    image: &[u8],
    budget: u32,
    cells: &mut [u32; sumpcandle::CELLS],
    line: &mut Line,
) {
    line.clear();
    let _ = match sumpcandle::cells(image, budget, cells) {
        Ok(Filled { tasks }) => accepted(line, cells, tasks),
        Err(Fault { refusal, place }) => writeln!(line, "refused {} {place}", refusal.number()),
    };
    let _ = rt.write_all(line.as_slice());
}

// One case; an error at the end of the input.
fn case(
    rt: &HostRuntime,
    image: &mut [u8; IMAGE],
    cells: &mut [u32; sumpcandle::CELLS],
    line: &mut Line,
) -> io::Result<()> {
    let mut from = rt.stdin();
    // by one read: another costs more than a small case does
    let mut head = [0u8; 6];
    from.read_exact(&mut head)?;
    let budget = u32::from_be_bytes([head[0], head[1], head[2], head[3]]);
    let length = u16::from_be_bytes([head[4], head[5]]);
    let image = &mut image[..usize::from(length)];
    from.read_exact(image)?;
    answer(rt, image, budget, cells, line);
    Ok(())
}

fn main(rt: HostRuntime) {
    // they are cleared once, and not for each case
    let mut image = [0u8; IMAGE];
    let mut cells = [0u32; sumpcandle::CELLS];
    let mut line = Line::new();
    for _ in 0..4_000_000_000u32 {
        if case(&rt, &mut image, &mut cells, &mut line).is_err() {
            break;
        }
    }
}
