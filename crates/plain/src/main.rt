// The plain jitter analysis beside the listing, for the table on standard input: of each task the code and the bound, and its plain
// response; with the word `explain` in words, and a last line over all tasks. All that matters is in the library.
#![tactic(auto)]

ghost use Rattle.std.specs.Prelude.{◌≡◌, ◌+◌, ◌^◌, ◌<◌};

use beside::Unanswered;
use output::{Begun, Grouped, Out, Verdict, Words};
use refusals::{Fault, PlainRefusal};
use row::Table;
use std::io;
use sumpcandle::{Filled, TaskCells};
use told::Code;

// What both analyses say of a task.
#[derive(Clone, Copy)]
struct Line {
    k: usize,
    told: TaskCells,
    response: Result<u32, Unanswered>,
    period: u32,
    offset: u32,
}

impl Line {
    fn bound(&self) -> Option<u32> {
        if self.told.bound == TaskCells::NO_BOUND {
            None
        } else {
            Some(self.told.bound)
        }
    }

    // How far the bound is above response + offset, where there are a bound and a response.
    fn above(&self) -> Option<u64> {
        let bound = u64::from(self.bound()?);
        let response = u64::from(self.response.ok()?);
        Some(bound.saturating_sub(response + u64::from(self.offset)))
    }
}

// Of the tasks so far: those whose bound is response + offset, those whose bound is above that, and those that lack one of the two.
#[derive(Clone, Copy)]
struct Summary {
    agree: u64,
    above: u64,
    apart: u64,
}

impl Summary {
    fn add(self, line: Line) -> Summary
        requires { self.agree + self.above + self.apart + 1 < 2 ^ 64 }
        ensures { result.agree + result.above + result.apart ≡ self.agree + self.above + self.apart + 1 }
    {
        match line.above() {
            None => Summary {
                apart: self.apart + 1,
                ..self
            },
            Some(0) => Summary {
                agree: self.agree + 1,
                ..self
            },
            Some(_) => Summary {
                above: self.above + 1,
                ..self
            },
        }
    }
}

fn number(why: Unanswered) -> u32 {
    match why {
        Unanswered::Refused(fault) => fault.refusal.number(),
        Unanswered::Unfit(refusal) => refusal.number(),
    }
}

fn line_of(image: &[u8], table: &[u32], cells: &[u32], k: usize) -> Option<Line> {
    Some(Line {
        k,
        told: TaskCells::of(cells, k)?,
        response: sumpcandle::plain(image, u32::try_from(k).ok()?),
        period: Table::period(table, Table::owner(table, k) as usize),
        offset: Table::offset(table, k),
    })
}

// Code and bound, which is 0 where there is none; and 0 and the response, or a refusal's number and 0.
fn listed(out: &mut Out, line: Line) -> io::Result<()> {
    let (number, response) = match line.response {
        Ok(response) => (0, response),
        Err(why) => (number(why), 0),
    };
    let TaskCells { code, bound, .. } = line.told;
    write!(out, "{} {code} {bound} {number} {response}\n", line.k)
}

// Ticks in a column, or that there are none.
fn ticks(out: &mut Out, n: Option<u32>) -> io::Result<()> {
    match n {
        Some(n) => out.grouped(u64::from(n), 11),
        None => write!(out, "{:>11}", "-"),
    }
}

// Why a task with a response has no bound.
fn not_bounded(out: &mut Out, code: u32) -> io::Result<()> {
    match Code::try_from(code) {
        Ok(Code::Overload) => out.say(
            b"  no bound: it and the tasks that can delay it may want more than the major frame holds; the response is above the period, and is that of one job alone\n",
        ),
        Ok(Code::Beyond) => write!(
            out,
            "  no bound: no busy time up to the horizon of {} ticks was found to end; the response is above the period, and is that of one job alone\n",
            Grouped(u64::from(Table::HORIZON)),
        ),
        Ok(Code::Spent) => write!(
            out,
            "  not decided: {} evaluations were not enough\n",
            Grouped(u64::from(input::BUDGET)),
        ),
        _ => write!(
            out,
            "  a code that is not known here: {}\n",
            Grouped(u64::from(code)),
        ),
    }
}

// What is to be said of the two.
fn compared(out: &mut Out, line: Line) -> io::Result<()> {
    let Ok(response) = line.response else {
        return write!(
            out,
            "  no response: no completion up to the horizon of {} ticks\n",
            Grouped(u64::from(Table::HORIZON)),
        );
    };
    match line.above() {
        None => not_bounded(out, line.told.code),
        Some(0) if response <= line.period => out.say(b"  agree: the bound is response + offset\n"),
        Some(0) => out.say(b"  agree, though the response is above the period\n"),
        Some(above) => write!(
            out,
            "  {} above response + offset: the response is above the period, so jobs may queue, and it is that of the first alone\n",
            Grouped(above),
        ),
    }
}

fn explained(out: &mut Out, line: Line) -> io::Result<()> {
    out.grouped(line.k as u64, 4)?;
    out.grouped(u64::from(line.period), 11)?;
    out.grouped(u64::from(line.offset), 11)?;
    ticks(out, line.response.ok())?;
    ticks(out, line.bound())?;
    compared(out, line)
}

// How many tasks of each kind there are, with a comma in front where another kind stands there.
fn last_line(out: &mut Out, tasks: usize, all: Summary) -> io::Result<()> {
    match tasks {
        1 => out.say(b"1 task: ")?,
        _ => write!(out, "{tasks} tasks: ")?,
    }
    if all.agree == tasks as u64 {
        return out.say(b"all agree\n");
    }
    let mut comma = "";
    for (n, kind) in [
        (all.agree, "agree"),
        (all.above, "above"),
        (all.apart, "not to compare"),
    ] {
        if 0 < n {
            write!(out, "{comma}{n} {kind}")?;
            comma = ", ";
        }
    }
    out.say(b"\n")
}

fn lines(
    out: &mut Out,
    explain: bool,
    image: &[u8],
    table: &[u32],
    cells: &[u32],
    tasks: usize,
) -> io::Result<()> {
    if explain {
        out.say(b"task     period     offset   response      bound\n")?;
    } else {
        out.say(b"task code bound number response\n")?;
    }
    let mut all = Summary {
        agree: 0,
        above: 0,
        apart: 0,
    };
    for k in 0..tasks {
        if let Some(line) = line_of(image, table, cells, k) {
            all = all.add(line);
            if explain {
                explained(out, line)?;
            } else {
                listed(out, line)?;
            }
        }
    }
    if explain {
        last_line(out, tasks, all)?;
    }
    Ok(())
}

// The first transaction with several tasks or modes.
fn several(table: &[u32]) -> usize {
    let count = Table::transactions(table) as usize;
    (0..count)
        .find(|u| Table::tasks(table, *u) != 1 || Table::modes(table, *u) != 1)
        .unwrap_or(count)
}

fn not_single(out: &mut Out, table: &[u32]) -> io::Result<()> {
    let u = several(table);
    write!(
        out,
        "table refused ({}): transaction {u} has several tasks or modes (tasks {}, modes {})\n",
        PlainRefusal::NotSingle.number(),
        Table::tasks(table, u),
        Table::modes(table, u),
    )
}

fn refused(out: &mut Out, number: u32, at: usize) -> io::Result<()> {
    write!(out, "refused {number} {at}\n")
}

fn image_refused(out: &mut Out, words: Words, image: &[u8], fault: Fault) -> io::Result<Verdict> {
    if words.explain {
        output::refused(out, image, fault)?;
    } else {
        refused(out, fault.refusal.number(), fault.place)?;
    }
    Ok(Verdict::Refused)
}

fn table_refused(out: &mut Out, words: Words, table: &[u32]) -> io::Result<Verdict> {
    if words.explain {
        not_single(out, table)?;
    } else {
        refused(out, PlainRefusal::NotSingle.number(), 0)?;
    }
    Ok(Verdict::Refused)
}

fn accepted(out: &mut Out, words: Words, image: &[u8], table: &[u32]) -> io::Result<Verdict> {
    let mut cells = [0u32; sumpcandle::CELLS];
    match sumpcandle::cells(image, input::BUDGET, &mut cells) {
        Err(fault) => image_refused(out, words, image, fault),
        Ok(Filled { tasks }) => {
            lines(out, words.explain, image, table, &cells, tasks)?;
            Ok(Verdict::accepted(TaskCells::all_kept(&cells, tasks)))
        }
    }
}

// A table that is not fit for the plain analysis is refused before the other one, which may take long, is begun. Any table has a task 0.
fn plain(out: &mut Out, words: Words, image: &[u8]) -> io::Result<Verdict> {
    let table = image::read(image).table;
    match sumpcandle::plain(image, 0) {
        Err(Unanswered::Refused(fault)) => image_refused(out, words, image, fault),
        Err(Unanswered::Unfit(PlainRefusal::NotSingle)) => table_refused(out, words, &table.cells),
        _ => accepted(out, words, image, &table.cells),
    }
}

fn main(rt: HostRuntime) {
    let mut image = [0u8; input::BUFFER];
    let known = Words {
        verdict: true,
        explain: true,
        ..Words::default()
    };
    if let Some(Begun { words, n }) = output::begin(&rt, b"plain", known, &mut image) {
        let image = &image[..n];
        let answer = plain(&mut Out::new(rt.stdout()), words, image);
        output::end(&rt, b"plain", words, image, answer);
    }
}
