// The listing in columns and words, for the table on standard input, with who pushed a task, and a last line over all tasks.
#![tactic(auto)]

ghost use Rattle.std.specs.Prelude.{◌≡◌, ◌+◌, ◌^◌, ◌<◌};

use output::{Begun, Grouped, Out, Verdict, Words};
use parts::{Part, Parts};
use row::Table;
use std::io;
use sumpcandle::{Filled, TaskCells};
use told::{Code, UnknownCode};

// More than any bound and any deadline: how far a task without a bound counts as above its deadline.
const FAR: u64 = 4_294_967_296;

// What is told of a task, and its deadline.
#[derive(Clone, Copy)]
struct Line {
    k: usize,
    told: TaskCells,
    deadline: u32,
}

impl Line {
    fn code(&self) -> Result<Code, UnknownCode> {
        Code::try_from(self.told.code)
    }

    fn is_kept(&self) -> bool {
        self.told.code == TaskCells::KEPT
    }

    fn bound(&self) -> Option<u64> {
        if self.told.bound == TaskCells::NO_BOUND {
            None
        } else {
            Some(u64::from(self.told.bound))
        }
    }

    // How far the bound is below the deadline.
    fn spare(&self) -> u64 {
        u64::from(self.deadline.saturating_sub(self.told.bound))
    }

    // How far it is above it.
    fn above(&self) -> u64 {
        match self.code() {
            Ok(Code::Late) => u64::from(self.told.bound.saturating_sub(self.deadline)),
            _ => FAR,
        }
    }
}

// Of the tasks so far: how many are in time and how many are not shown to be, which of these is worst, and which of the others has the
// least to spare. The first of equals stays.
#[derive(Clone, Copy)]
struct Summary {
    kept: u64,
    open: u64,
    worst: Option<Line>,
    nearest: Option<Line>,
}

impl Summary {
    fn add(self, line: Line) -> Summary
        requires { self.kept + self.open + 1 < 2 ^ 64 }
        ensures { result.kept + result.open ≡ self.kept + self.open + 1 }
    {
        if line.is_kept() {
            Summary {
                kept: self.kept + 1,
                nearest: match self.nearest {
                    Some(nearest) if nearest.spare() <= line.spare() => self.nearest,
                    _ => Some(line),
                },
                ..self
            }
        } else {
            Summary {
                open: self.open + 1,
                worst: match self.worst {
                    Some(worst) if line.above() <= worst.above() => self.worst,
                    _ => Some(line),
                },
                ..self
            }
        }
    }
}

// A table, and what is told of its tasks.
#[derive(Clone, Copy)]
struct Told<'a> {
    image: &'a [u8],
    table: &'a [u32],
    cells: &'a [u32],
    tasks: usize,
}

impl<'a> Told<'a> {
    fn line(&self, k: usize) -> Option<Line> {
        Some(Line {
            k,
            told: TaskCells::of(self.cells, k)?,
            deadline: Table::deadline(self.table, k),
        })
    }

    fn summary(&self) -> Summary {
        let mut all = Summary {
            kept: 0,
            open: 0,
            worst: None,
            nearest: None,
        };
        for k in 0..self.tasks {
            if let Some(line) = self.line(k) {
                all = all.add(line);
            }
        }
        all
    }
}

// Each column but the first has a blank before it.
fn columns(out: &mut Out, table: &[u32], line: Line) -> io::Result<()> {
    let u = Table::owner(table, line.k);
    out.grouped(line.k as u64, 4)?;
    out.grouped(u64::from(u), 6)?;
    out.grouped(u64::from(Table::period(table, u as usize)), 11)?;
    out.grouped(u64::from(Table::priority(table, line.k)), 9)?;
    match line.bound() {
        Some(bound) => out.grouped(bound, 11)?,
        None => write!(out, "{:>11}", "-")?,
    }
    out.grouped(u64::from(line.deadline), 11)
}

fn meaning(out: &mut Out, line: Line) -> io::Result<()> {
    match line.code() {
        Ok(Code::Kept) => write!(out, "  in time, {} to spare", Grouped(line.spare())),
        Ok(Code::Late) => write!(
            out,
            "  not shown to be in time, {} above",
            Grouped(line.above())
        ),
        Ok(Code::Overload) => write!(
            out,
            "  no bound: it and the tasks that can delay it may want more than the major frame holds",
        ),
        Ok(Code::Beyond) => write!(
            out,
            "  no bound: no busy time up to the horizon of {} ticks was found to end",
            Grouped(u64::from(Table::HORIZON)),
        ),
        Ok(Code::Spent) => write!(
            out,
            "  not decided: {} evaluations were not enough",
            Grouped(u64::from(input::BUDGET)),
        ),
        Err(UnknownCode(code)) => write!(
            out,
            "  a code that is not known here: {}",
            Grouped(u64::from(code)),
        ),
    }
}

// Ticks in the column of the bounds, and what they are.
fn part(out: &mut Out, ticks: u64, text: &str) -> io::Result<()> {
    out.grouped(ticks, 41)?;
    write!(out, "  {text}\n")
}

// What another transaction charges, if it has rivals.
fn other(out: &mut Out, image: &[u8], k: u32, i: u32, completion: u32) -> io::Result<()> {
    let Ok(Part::Charged(charge)) = sumpcandle::charge(image, k, i, false, completion) else {
        return Ok(());
    };
    out.grouped(charge.ticks, 41)?;
    write!(
        out,
        "  transaction {i}, most when task {} sets it in mode {}\n",
        charge.candidate, charge.mode,
    )
}

// How far from the instant the job arrived, on which side, and the bound that follows: completion − arrival + offset. So the arrival is
// completion + offset − bound.
fn response(out: &mut Out, of: Parts, bound: u32) -> io::Result<()> {
    let bound = u64::from(bound);
    let end = u64::from(of.completion) + u64::from(of.offset);
    let (side, sign) = if end < bound {
        ("before", "+")
    } else {
        ("after", "-")
    };
    let by = Grouped(end.abs_diff(bound));
    let offset = Grouped(u64::from(of.offset));
    write!(
        out,
        "      arrived {by} {side} that instant, offset {offset}: "
    )?;
    let completion = Grouped(u64::from(of.completion));
    write!(
        out,
        "{completion} {sign} {by} + {offset} = {}\n",
        Grouped(bound)
    )
}

// What the bound of a task is made of, under its line: the parts add up to the completion.
fn made(out: &mut Out, told: &Told, line: Line) -> io::Result<()> {
    let Ok(k) = u32::try_from(line.k) else {
        return Ok(());
    };
    let Ok(Some(of)) = sumpcandle::parts(told.image, k, input::BUDGET) else {
        return Ok(());
    };
    write!(
        out,
        "      completes {} after the critical instant; task {} sets it in mode {}:\n",
        Grouped(u64::from(of.completion)),
        line.told.candidate,
        line.told.mode,
    )?;
    if of.blocking != 0 {
        part(out, u64::from(of.blocking), "blocking")?;
    }
    out.grouped(u64::from(of.jobs), 41)?;
    write!(
        out,
        "  its own jobs ({})\n",
        Grouped(u64::from(line.told.job) + 1)
    )?;
    if of.rivals != 0 {
        part(out, u64::from(of.rivals), "other tasks of its transaction")?;
    }
    for i in 0..Table::transactions(told.table) {
        other(out, told.image, k, i, of.completion)?;
    }
    response(out, of, line.told.bound)
}

fn task(out: &mut Out, words: Words, told: &Told, line: Line) -> io::Result<()> {
    let kept = line.is_kept();
    if words.open && kept {
        return Ok(());
    }
    let red = words.colour && !kept;
    out.begin_line(red)?;
    columns(out, told.table, line)?;
    meaning(out, line)?;
    out.end_line(red)?;
    // without a bound there is nothing to ask: that would only walk again
    if (words.all || !kept) && line.bound().is_some() {
        made(out, told, line)?;
    }
    Ok(())
}

fn every_task(out: &mut Out, words: Words, told: &Told, open: u64) -> io::Result<()> {
    if !words.open || 0 < open {
        out.say(b"task trans     period priority      bound   deadline\n")?;
    }
    for k in 0..told.tasks {
        if let Some(line) = told.line(k) {
            task(out, words, told, line)?;
        }
    }
    Ok(())
}

// How many are in time, how many not, and the worst of these.
fn not_all(out: &mut Out, all: Summary, worst: Line) -> io::Result<()> {
    write!(
        out,
        "{} in time, {} not shown to be (",
        Grouped(all.kept),
        Grouped(all.open)
    )?;
    if 1 < all.open {
        out.say(b"worst ")?;
    }
    write!(out, "task {}, ", worst.k)?;
    match worst.code() {
        Ok(Code::Late) => write!(out, "{} above)", Grouped(worst.above())),
        Ok(Code::Spent) => out.say(b"not decided)"),
        _ => out.say(b"no bound)"),
    }
}

fn last_line(out: &mut Out, words: Words, tasks: usize, all: Summary) -> io::Result<()> {
    let red = words.colour && 0 < all.open;
    out.begin_line(red)?;
    match tasks {
        1 => out.say(b"1 task: ")?,
        _ => write!(out, "{tasks} tasks: ")?,
    }
    match all.worst {
        None => out.say(b"all in time")?,
        Some(worst) => not_all(out, all, worst)?,
    }
    if let Some(nearest) = all.nearest {
        write!(
            out,
            "; least to spare {} (task {})",
            Grouped(nearest.spare()),
            nearest.k
        )?;
    }
    out.end_line(red)
}

// All lines, and whether every task is in time.
fn explain(out: &mut Out, words: Words, image: &[u8]) -> io::Result<Verdict> {
    let table = image::read(image).table;
    let mut cells = [0u32; sumpcandle::CELLS];
    match sumpcandle::cells(image, input::BUDGET, &mut cells) {
        Err(fault) => {
            output::refused(out, image, fault)?;
            Ok(Verdict::Refused)
        }
        Ok(Filled { tasks }) => {
            let told = Told {
                image,
                table: &table.cells,
                cells: &cells,
                tasks,
            };
            let all = told.summary();
            every_task(out, words, &told, all.open)?;
            last_line(out, words, tasks, all)?;
            Ok(Verdict::accepted(TaskCells::all_kept(&cells, tasks)))
        }
    }
}

fn main(rt: HostRuntime) {
    let mut image = [0u8; input::BUFFER];
    let known = Words {
        verdict: true,
        open: true,
        all: true,
        colour: true,
        ..Words::default()
    };
    if let Some(Begun { words, n }) = output::begin(&rt, b"explain", known, &mut image) {
        let image = &image[..n];
        let answer = explain(&mut Out::new(rt.stdout()), words, image);
        output::end(&rt, b"explain", words, image, answer);
    }
}
