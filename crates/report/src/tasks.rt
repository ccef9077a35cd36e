// The tasks of a table, least to spare first: a line each, and what opens under it.
use super::busy::Pushed;
use super::facts::{Bound, Fact, Told};
use super::gather;
use page::Sheet;
use row::Table;
use std::cmp::Ordering;
use std::io;
use told::Code;

// What follows of a task's code.
fn meaning(sheet: &mut Sheet, task: &Fact) -> io::Result<()> {
    let ticks = task.ticks().unwrap_or(0);
    match task.code {
        Code::Kept => sheet.fill(
            b"<span class='s'>$ to spare",
            &[task.deadline.saturating_sub(ticks)],
        ),
        Code::Late => sheet.fill(
            b"<span class='s'>&#9650; $ above<span class='h'>, not shown to be in time</span>",
            &[ticks.saturating_sub(task.deadline)],
        ),
        Code::Spent => sheet.put(b"<span class='s'>&#9650; not decided"),
        Code::Overload | Code::Beyond => sheet.put(b"<span class='s'>&#9650; no bound"),
    }
}

// Why a task has no bound.
fn why(sheet: &mut Sheet, code: Code) -> io::Result<()> {
    match code {
        Code::Overload => sheet.put(
            b"it and the tasks that can delay it may want more than the major frame holds",
        ),
        Code::Beyond => sheet.fill(
            b"no busy time up to the horizon of $ ticks was found to end",
            &[u64::from(Table::HORIZON)],
        ),
        Code::Kept | Code::Late | Code::Spent => sheet.fill(
            b"$ evaluations were not enough",
            &[u64::from(input::BUDGET)],
        ),
    }
}

// What became of its bound since the table that this one is compared with.
fn change(sheet: &mut Sheet, old: Option<u64>, new: Option<u64>) -> io::Result<()> {
    match (old, new) {
        (None, None) => sheet.put(b"<span class='c'>had none either</span>"),
        (None, Some(_)) => sheet.put(b"<span class='c'><b>had no bound</b></span>"),
        (Some(old), None) => {
            sheet.fill(b"<span class='c'><b>the bound was $</b></span>", &[old])
        }
        (Some(old), Some(new)) => match new.cmp(&old) {
            Ordering::Equal => sheet.put(b"<span class='c'>as before</span>"),
            Ordering::Greater => sheet.fill(
                b"<span class='c'>was $, <b>&#9650; $ more</b></span>",
                &[old, new.saturating_sub(old)],
            ),
            Ordering::Less => sheet.fill(
                b"<span class='c'>was $, <b>&#9660; $ less</b></span>",
                &[old, old.saturating_sub(new)],
            ),
        },
    }
}

// The columns in front of the bar.
fn columns(sheet: &mut Sheet, told: &Told, task: &Fact) -> io::Result<()> {
    sheet.put(b"<span class='n'>")?;
    told.named(sheet, task.number)?;
    sheet.put(b"</span><span class='v'><span class='h'>bound </span>")?;
    match task.ticks() {
        Some(ticks) => sheet.fill(b"$", &[ticks])?,
        None => sheet.put(b"&#8211;")?,
    }
    sheet.fill(
        b"</span><span class='v'><span class='h'>deadline </span>$</span>",
        &[task.deadline],
    )?;
    meaning(sheet, task)?;
    if told.compared {
        change(sheet, task.old, task.ticks())?;
    }
    sheet.put(b"</span>")
}

// A task without a bound says why.
fn unbounded(sheet: &mut Sheet, told: &Told, task: &Fact) -> io::Result<()> {
    sheet.put(b"'><div class='task none row'>")?;
    columns(sheet, told, task)?;
    sheet.put(b"<span class='w5'>")?;
    why(sheet, task.code)?;
    sheet.put(b"</span></div></div>\n")
}

// Under the line of one with a bound stands who pushed it: open where the task is not shown to be in time.
fn bounded(sheet: &mut Sheet, told: &Told, task: &Fact, bound: &Bound) -> io::Result<()> {
    if task.is_open() {
        sheet.put(b"'><details class='task open' open><summary class='row'>")?;
    } else {
        sheet.put(b"'><details class='task'><summary class='row'>")?;
    }
    columns(sheet, told, task)?;
    told.scale.bar(sheet, task, bound)?;
    sheet.put(b"</summary><div class='more'>\n")?;
    Pushed { told, task, bound }.show(sheet)?;
    sheet.put(b"</div></details></div>\n")
}

fn line(sheet: &mut Sheet, told: &Told, task: &Fact) -> io::Result<()> {
    sheet.fill(b"<div id='a@t@", &[told.key, task.number as u64])?;
    match &task.bound {
        Some(bound) => bounded(sheet, told, task, bound),
        None => unbounded(sheet, told, task),
    }
}

// All tasks in their order.
pub(crate) fn every(sheet: &mut Sheet, told: &Told) -> io::Result<()> {
    sheet.put(
        b"<div class='row head' aria-hidden='true'><span class='n'>task</span><span class='v'>bound</span><span class='v'>deadline</span><span class='s'>to spare</span>",
    )?;
    told.scale.axis(sheet)?;
    sheet.put(b"</div>\n")?;
    for k in gather::order(told.tasks) {
        if let Some(task) = told.tasks.get(k) {
            line(sheet, told, task)?;
        }
    }
    Ok(())
}
