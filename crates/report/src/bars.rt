// Bound against deadline: one bar a task, on one scale of ticks from the event on.
use super::facts::{Bound, Fact};
use page::Sheet;
use std::io;

// The steps that an axis may have.
const STEPS: [u64; 25] = [
    1,
    2,
    5,
    10,
    20,
    50,
    100,
    200,
    500,
    1_000,
    2_000,
    5_000,
    10_000,
    20_000,
    50_000,
    100_000,
    200_000,
    500_000,
    1_000_000,
    2_000_000,
    5_000_000,
    10_000_000,
    20_000_000,
    50_000_000,
    100_000_000,
];

// A step has at most six others behind it.
const MARKS: u64 = 7;

// The least step with at most six of them in a span.
fn step_of(span: u64) -> u64 {
    STEPS
        .iter()
        .copied()
        .find(|step| span < step.saturating_mul(MARKS))
        .unwrap_or(STEPS[24])
}

// An axis that begins `shift` ticks before the event.
#[derive(Clone, Copy)]
pub(crate) struct Scale {
    shift: u64,
    span: u64,
    step: u64,
}

impl Scale {
    // It has room for each bound, here or in the table that this one is compared with, and for how far before its event a critical
    // instant lies; a deadline counts up to twice the greatest bound.
    pub(crate) fn new(tasks: &[Fact]) -> Scale {
        let mut shift: u64 = 0;
        let mut most: u64 = 0;
        for task in tasks {
            most = most.max(task.old.unwrap_or(0));
            if let Some(bound) = &task.bound {
                most = most.max(bound.ticks);
                shift = shift.max(bound.completion.saturating_sub(bound.ticks));
            }
        }
        let limit = most.saturating_mul(2);
        let mut end = most;
        for task in tasks {
            if task.deadline <= limit {
                end = end.max(task.deadline);
            }
        }
        let span = shift.saturating_add(end).max(1);
        Scale {
            shift,
            span,
            step: step_of(span),
        }
    }

    fn place(self, t: u64) -> u64 {
        t.saturating_add(self.shift)
    }

    // The labels of the axis, from the event on.
    pub(crate) fn axis(self, sheet: &mut Sheet) -> io::Result<()> {
        sheet.put(b"<span class='axis w5' aria-hidden='true'>")?;
        for n in 0..MARKS {
            let t = self.step.saturating_mul(n);
            let at = self.place(t);
            if at <= self.span {
                sheet.fill(
                    b"<span style='left:calc(100%*@/@)'>$</span>",
                    &[at, self.span, t],
                )?;
            }
        }
        sheet.put(b"</span>")
    }

    // The lines of the axis behind a bar.
    fn grid(self, sheet: &mut Sheet) -> io::Result<()> {
        sheet.put(b"<path class='g' d='")?;
        for n in 0..MARKS {
            let at = self.place(self.step.saturating_mul(n));
            if at <= self.span {
                sheet.fill(b"M@ 0V20", &[at])?;
            }
        }
        sheet.put(b"'/>")
    }

    // The deadline: a mark, or an arrow at the end where it lies beyond; and a frame around what is above it.
    fn deadline(self, sheet: &mut Sheet, deadline: u64, bound: u64) -> io::Result<()> {
        let at = self.place(deadline);
        if self.span < at {
            let near = self.span.saturating_sub((self.span / 80).max(1));
            return sheet.fill(
                b"<path class='d' d='M@ 3L@ 10L@ 17'/>",
                &[near, self.span, near],
            );
        }
        piece(
            sheet,
            b"<rect class='l' x='@' y='0' width='@' height='20'/>",
            at,
            bound.saturating_sub(deadline),
        )?;
        sheet.fill(b"<path class='d' d='M@ -2V22'/>", &[at])
    }

    // The bar of a task with a bound.
    pub(crate) fn bar(self, sheet: &mut Sheet, task: &Fact, bound: &Bound) -> io::Result<()> {
        let start = self.place(bound.ticks).saturating_sub(bound.completion);
        let arrived = self.place(bound.offset);
        sheet.fill(
            b"<svg class='w5' viewBox='0 0 @ 20' preserveAspectRatio='none' aria-hidden='true'>",
            &[self.span],
        )?;
        self.grid(sheet)?;
        piece(
            sheet,
            b"<rect class='w' x='@' y='6' width='@' height='8'/>",
            arrived,
            start.saturating_sub(arrived),
        )?;
        pieces(sheet, bound, start)?;
        self.deadline(sheet, task.deadline, bound.ticks)?;
        if let Some(old) = task.old {
            sheet.fill(b"<path class='p' d='M@ -2V22'/>", &[self.place(old)])?;
        }
        sheet.put(b"</svg>")
    }
}

// A part of a bar, left out where it is 0.
fn piece(sheet: &mut Sheet, form: &[u8], at: u64, ticks: u64) -> io::Result<()> {
    if ticks == 0 {
        return Ok(());
    }
    sheet.fill(form, &[at, ticks])
}

// The parts of a completion one behind the other, from `from` on: they end where it does.
pub(crate) fn pieces(sheet: &mut Sheet, bound: &Bound, from: u64) -> io::Result<()> {
    let own = from.saturating_add(bound.blocking);
    let behind = own.saturating_add(bound.jobs);
    piece(
        sheet,
        b"<rect class='b' x='@' y='7' width='@' height='6'/>",
        from,
        bound.blocking,
    )?;
    piece(
        sheet,
        b"<rect class='o' x='@' y='1' width='@' height='18'/>",
        own,
        bound.jobs,
    )?;
    piece(
        sheet,
        b"<rect class='r' x='@' y='3' width='@' height='14'/>",
        behind,
        bound.rivals,
    )?;
    let mut at = behind.saturating_add(bound.rivals);
    for charge in bound.charges.iter() {
        piece(
            sheet,
            b"<rect class='x' x='@' y='4' width='@' height='12'/>",
            at,
            charge.ticks,
        )?;
        at = at.saturating_add(charge.ticks);
    }
    Ok(())
}
