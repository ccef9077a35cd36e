// The technician's listing: a line for each task of the table on standard input, or the refusal. All that matters is in
// the library; what is printed is held to stored output by the check.
#![tactic(auto)]

use output::{Begun, Out, Verdict, Words};
use refusals::Fault;
use std::io;
use sumpcandle::{Filled, TaskCells};

fn line(out: &mut Out, k: usize, cells: &[u32]) -> io::Result<()> {
    write!(out, "{k}")?;
    for cell in cells {
        out.cell(*cell, false)?;
    }
    out.say(b"\n")
}

fn lines(out: &mut Out, cells: &[u32], tasks: usize) -> io::Result<()> {
    out.say(b"task code bound evaluations mode candidate job\n")?;
    for (k, task) in cells.chunks_exact(TaskCells::COUNT).take(tasks).enumerate() {
        line(out, k, task)?;
    }
    Ok(())
}

fn list(out: &mut Out, image: &[u8]) -> io::Result<Verdict> {
    let mut cells = [0u32; sumpcandle::CELLS];
    match sumpcandle::cells(image, input::BUDGET, &mut cells) {
        Ok(Filled { tasks }) => {
            lines(out, &cells, tasks)?;
            Ok(Verdict::accepted(TaskCells::all_kept(&cells, tasks)))
        }
        Err(Fault { refusal, place }) => {
            write!(out, "refused {} {place}\n", refusal.number())?;
            Ok(Verdict::Refused)
        }
    }
}

fn main(rt: HostRuntime) {
    let mut image = [0u8; input::BUFFER];
    let known = Words {
        verdict: true,
        ..Words::default()
    };
    if let Some(Begun { words, n }) = output::begin(&rt, b"listing", known, &mut image) {
        let image = &image[..n];
        let answer = list(&mut Out::new(rt.stdout()), image);
        output::end(&rt, b"listing", words, image, answer);
    }
}
