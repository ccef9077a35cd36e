// What stands on top of a page, and on top of a table: its name, its sum, its counts, and the verdict in one sentence.
use super::facts::{Fact, Title, Told};
use super::style;
use image::Reading;
use page::Sheet;
use row::Table;
use std::io;

// The beginning of a page, up to its body.
pub(crate) fn begin(sheet: &mut Sheet, title: &[u8]) -> io::Result<()> {
    sheet.put(
        b"<!DOCTYPE html>\n<html lang='en'>\n<head>\n<meta charset='utf-8'>\n<meta name='viewport' content='width=device-width, initial-scale=1'>\n<meta name='generator' content='sumpcandle --report'>\n<title>",
    )?;
    sheet.escaped(title)?;
    sheet.put(b"</title>\n")?;
    style::style(sheet)?;
    sheet.put(b"</head>\n<body>\n")
}

// The sum of an image. Of one that is longer than any table the rest was not read.
pub(crate) fn sum(sheet: &mut Sheet, image: &[u8]) -> io::Result<()> {
    if Reading::LONGEST < image.len() {
        return sheet.put(b"not known: not all of its bytes were read");
    }
    sheet.put(b"<span class='sum'>")?;
    for word in sha256::sum(image) {
        for b in word.to_be_bytes() {
            sheet.byte(b)?;
        }
    }
    sheet.put(b"</span>")
}

// The name of a table as its heading.
pub(crate) fn heading(sheet: &mut Sheet, title: Title) -> io::Result<()> {
    sheet.fill(b"<article id='a@'>\n<h1>", &[title.key])?;
    sheet.escaped(title.name)?;
    sheet.put(b"</h1>\n")
}

// The bytes of a table, for the list of its facts.
pub(crate) fn bytes(sheet: &mut Sheet, image: &[u8]) -> io::Result<()> {
    if Reading::LONGEST < image.len() {
        sheet.fill(
            b"<dl>\n<dt>bytes<dd>more than $, which no table has\n<dt>SHA-256<dd>",
            &[Reading::LONGEST as u64],
        )?;
    } else {
        sheet.fill(
            b"<dl>\n<dt>bytes<dd>$\n<dt>SHA-256<dd>",
            &[image.len() as u64],
        )?;
    }
    sum(sheet, image)?;
    sheet.put(b"\n")
}

// How many tasks are not shown to be in time.
pub(crate) fn open(tasks: &[Fact]) -> u64 {
    tasks.iter().filter(|task| task.is_open()).count() as u64
}

// Links to the tasks that are not shown to be in time.
fn open_ones(sheet: &mut Sheet, told: &Told) -> io::Result<()> {
    let open = told.tasks.iter().filter(|task| task.is_open());
    for (n, task) in open.enumerate() {
        if 0 < n {
            sheet.put(b", ")?;
        }
        sheet.fill(b"<a href='#a@t@'>", &[told.key, task.number as u64])?;
        told.named(sheet, task.number)?;
        sheet.put(b"</a>")?;
    }
    Ok(())
}

// The verdict in one sentence.
pub(crate) fn verdict(sheet: &mut Sheet, told: &Told, open: u64) -> io::Result<()> {
    if open == 0 {
        return sheet.put(b"<p class='verdict'>Every task keeps its deadline.</p>\n");
    }
    sheet.fill(
        b"<p class='verdict open'>&#9650; Not every task is shown to keep its deadline; not shown are $ of $: ",
        &[open, told.tasks.len() as u64],
    )?;
    open_ones(sheet, told)?;
    sheet.put(b".</p>\n")
}

// The facts of an accepted table.
pub(crate) fn counts(sheet: &mut Sheet, told: &Told) -> io::Result<()> {
    sheet.fill(
        b"<dt>edition<dd>@\n<dt>major frame<dd>$ ticks\n<dt>transactions<dd>$\n<dt>tasks<dd>$\n<dt>budget<dd>$ evaluations a task\n</dl>\n",
        &[
            u64::from(Table::edition(told.table)),
            u64::from(Table::frame(told.table)),
            u64::from(Table::transactions(told.table)),
            told.tasks.len() as u64,
            u64::from(input::BUDGET),
        ],
    )
}

// What is proved of the numbers and what is not, and how to read the bars.
pub(crate) fn reading(sheet: &mut Sheet) -> io::Result<()> {
    sheet.put(
        b"<p>Proved: in every legal run of this table each job of a task with a bound has finished when its bound has passed since its event, so a task whose bound is not above its deadline keeps it; and each bound is the greatest response of the published analysis, of the parts shown here. Not proved: that a task with a greater bound, or with none, is ever late, and this page itself, which only prints what the proved library answers.</p>\n",
    )?;
    sheet.put(
        b"<h2>Bound against deadline, least to spare first</h2>\n<p>Ticks since a task's event. A bar begins at the critical instant and ends at the bound; its parts:</p>\n<ul class='key'>\n<li><svg viewBox='0 0 30 20' aria-hidden='true'><rect class='w' x='3' y='6' width='24' height='8'/></svg>held back, before the instant\n<li><svg viewBox='0 0 30 20' aria-hidden='true'><rect class='b' x='3' y='7' width='24' height='6'/></svg>blocking\n<li><svg viewBox='0 0 30 20' aria-hidden='true'><rect class='o' x='3' y='1' width='24' height='18'/></svg>its own jobs\n",
    )?;
    sheet.put(
        b"<li><svg viewBox='0 0 30 20' aria-hidden='true'><rect class='r' x='3' y='3' width='24' height='14'/></svg>other tasks of its transaction\n<li><svg viewBox='0 0 30 20' aria-hidden='true'><rect class='x' x='3' y='4' width='10' height='12'/><rect class='x' x='13' y='4' width='14' height='12'/></svg>each other transaction\n<li><svg viewBox='0 0 30 20' aria-hidden='true'><path class='d' d='M15 -2V22'/></svg>deadline (&#8250; beyond the axis)\n<li><svg viewBox='0 0 30 20' aria-hidden='true'><rect class='l' x='3' y='0' width='24' height='20'/></svg>above the deadline\n</ul>\n<p>Open a task to see who pushed it.</p>\n",
    )
}

// The beginning of a page of several tables, up to the lines of its summary.
pub(crate) fn several(sheet: &mut Sheet, title: &[u8]) -> io::Result<()> {
    begin(sheet, title)?;
    sheet.put(b"<header>\n<h1>")?;
    sheet.escaped(title)?;
    sheet.put(
        b"</h1>\n<table><thead><tr><th scope='col'>table<th scope='col'>verdict<th scope='col' class='v'>tasks<th scope='col' class='v'>not shown<tbody>\n",
    )
}

// The name of a table in the summary, which leads to it.
fn linked(sheet: &mut Sheet, title: Title) -> io::Result<()> {
    sheet.fill(b"<tr><td><a href='#a@'>", &[title.key])?;
    sheet.escaped(title.name)?;
    sheet.put(b"</a>")
}

// The line of a table in the summary of several.
pub(crate) fn line(sheet: &mut Sheet, title: Title, tasks: usize, open: u64) -> io::Result<()> {
    linked(sheet, title)?;
    if open == 0 {
        sheet.put(b"<td>every task keeps its deadline")?;
    } else {
        sheet.put(b"<td>&#9650; not every task is shown to")?;
    }
    sheet.fill(b"<td class='v'>$<td class='v'>$\n", &[tasks as u64, open])
}

pub(crate) fn line_refused(sheet: &mut Sheet, title: Title, number: u32) -> io::Result<()> {
    linked(sheet, title)?;
    sheet.fill(b"<td>&#9650; refused ($)<td><td>\n", &[u64::from(number)])
}
