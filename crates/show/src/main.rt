// The table on standard input as text, in the words of document 02's item 9: what a later export writes.
#![tactic(auto)]

use output::{Begun, Out, Verdict, Words};
use row::Table;
use std::io;

fn trans(out: &mut Out, row: &[u32], u: usize, aligned: bool) -> io::Result<()> {
    out.say(b"trans")?;
    out.cell(Table::period(row, u), aligned)?;
    out.cell(Table::modes(row, u), aligned)?;
    out.say(b"\n")
}

// A task, and before the first one of a transaction that transaction.
fn task(out: &mut Out, row: &[u32], k: usize, aligned: bool) -> io::Result<()> {
    let u = Table::owner(row, k) as usize;
    if k == Table::first(row, u) as usize {
        trans(out, row, u, aligned)?;
    }
    // in columns it is as wide as the other words
    out.say(if aligned { b"task " } else { b"task" })?;
    out.cell(Table::offset(row, k), aligned)?;
    out.cell(Table::jitter(row, k), aligned)?;
    out.cell(Table::blocking(row, k), aligned)?;
    out.cell(Table::deadline(row, k), aligned)?;
    out.cell(Table::priority(row, k), aligned)?;
    for m in 0..Table::modes(row, u) as usize {
        out.cell(Table::time(row, k, m), aligned)?;
    }
    out.say(b"\n")
}

fn lines(out: &mut Out, row: &[u32], aligned: bool) -> io::Result<()> {
    out.say(b"frame")?;
    out.cell(Table::frame(row), aligned)?;
    out.say(b"\n")?;
    for k in 0..Table::in_all(row) as usize {
        task(out, row, k, aligned)?;
    }
    Ok(())
}

fn show(out: &mut Out, words: Words, image: &[u8]) -> io::Result<Verdict> {
    let reading = image::read(image);
    match reading.answer {
        Ok(()) => {
            lines(out, &reading.table.cells, words.aligned)?;
            Ok(Verdict::Kept)
        }
        Err(fault) => {
            output::refused(out, image, fault)?;
            Ok(Verdict::Refused)
        }
    }
}

fn main(rt: HostRuntime) {
    let mut image = [0u8; input::BUFFER];
    let known = Words {
        verdict: true,
        aligned: true,
        ..Words::default()
    };
    if let Some(Begun { words, n }) = output::begin(&rt, b"show", known, &mut image) {
        let image = &image[..n];
        let answer = show(&mut Out::new(rt.stdout()), words, image);
        output::end(&rt, b"show", words, image, answer);
    }
}
