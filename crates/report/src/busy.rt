// Who pushed a task: the parts of its bound as a table, and its busy time from the critical instant on.
use super::bars;
use super::facts::{Bound, Fact, Lane, Told};
use page::Sheet;
use row::Table;
use std::io;

// More jobs than this of one task are not drawn.
const DRAWN: u64 = 64;

// The jobs of one task of the transaction as they are drawn: of the task itself those up to the one that gives the bound.
#[derive(Clone, Copy)]
struct Jobs {
    itself: bool,
    phase: u64,
    held: u64,
    period: u64,
    time: u64,
    // How many there are, those held back among them.
    most: u64,
    // Where the busy time ends.
    end: u64,
}

impl Jobs {
    // So many jobs at the critical instant, one behind the other.
    fn held_back(self, sheet: &mut Sheet, count: u64) -> io::Result<()> {
        for n in 0..count {
            sheet.fill(
                b"<rect class='w' x='@' y='1' width='@' height='8'/>",
                &[self.time.saturating_mul(n), self.time],
            )?;
        }
        Ok(())
    }

    // So many jobs at their arrivals, as far as the busy time goes.
    fn later(self, sheet: &mut Sheet, count: u64) -> io::Result<()> {
        for n in 0..count {
            let at = self.phase.saturating_add(self.period.saturating_mul(n));
            if at < self.end {
                sheet.put(if self.itself {
                    b"<rect class='o'"
                } else {
                    b"<rect class='r'"
                })?;
                sheet.fill(
                    b" x='@' y='11' width='@' height='8'/><path class='d' d='M@ 9V21'/>",
                    &[at, self.time.min(self.end - at), at],
                )?;
            }
        }
        Ok(())
    }

    fn draw(self, sheet: &mut Sheet) -> io::Result<()> {
        if DRAWN < self.most {
            return sheet.put(b"too many jobs to draw");
        }
        let early = self.held.min(self.most);
        sheet.fill(
            b"<svg viewBox='0 0 @ 20' preserveAspectRatio='none' aria-hidden='true'>",
            &[self.end],
        )?;
        self.held_back(sheet, early)?;
        self.later(sheet, self.most - early)?;
        sheet.put(b"</svg>")
    }
}

// How many jobs of a rival count by the end: those held back, and each that arrives before it.
fn counted(lane: Lane, period: u64, end: u64) -> u64 {
    if period == 0 || end <= lane.phase {
        return lane.held;
    }
    let arrivals = ((end - lane.phase - 1) / period).saturating_add(1);
    lane.held.saturating_add(arrivals)
}

// A task with a bound.
#[derive(Clone, Copy)]
pub(crate) struct Pushed<'a> {
    pub(crate) told: &'a Told<'a>,
    pub(crate) task: &'a Fact<'a>,
    pub(crate) bound: &'a Bound,
}

impl Pushed<'_> {
    // The other transactions of the bound, a line each.
    fn others(&self, sheet: &mut Sheet) -> io::Result<()> {
        for (i, charge) in self.bound.charges.iter().enumerate() {
            if 0 < charge.ticks {
                sheet.fill(
                    b"<tr><td>transaction @<td class='v'>@<td>",
                    &[i as u64, charge.mode],
                )?;
                self.told.named(sheet, charge.candidate)?;
                sheet.fill(b"<td class='v'>$\n", &[charge.ticks])?;
            }
        }
        Ok(())
    }

    // How far from the instant the job arrived, on which side, and the bound that follows.
    fn arrived(&self, sheet: &mut Sheet) -> io::Result<()> {
        let (ticks, completion, offset) = (
            self.bound.ticks,
            self.bound.completion,
            self.bound.offset,
        );
        let end = completion.saturating_add(offset);
        if end < ticks {
            let before = ticks - end;
            return sheet.fill(
                b"<p>The job arrived $ before the critical instant and was held back; its offset is $. The bound is completion &#8722; arrival + offset: $ + $ + $ = $.</p>\n",
                &[before, offset, completion, before, offset, ticks],
            );
        }
        let after = end - ticks;
        sheet.fill(
            b"<p>The job arrived $ after the critical instant; its offset is $. The bound is completion &#8722; arrival + offset: $ &#8722; $ + $ = $.</p>\n",
            &[after, offset, completion, after, offset, ticks],
        )
    }

    // The parts as a table; a part without a candidate of its own is left out where it is 0 ticks.
    fn parts(&self, sheet: &mut Sheet) -> io::Result<()> {
        let bound = self.bound;
        let mode = bound.mode as u64;
        sheet.put(
            b"<table><thead><tr><th scope='col'>what it waits for<th scope='col' class='v'>mode<th scope='col'>critical instant set by<th scope='col' class='v'>ticks<tbody>\n",
        )?;
        if 0 < bound.blocking {
            sheet.fill(
                b"<tr><td>blocking<td><td><td class='v'>$\n",
                &[bound.blocking],
            )?;
        }
        sheet.fill(
            b"<tr><td>its own jobs ($)<td class='v'>@<td>",
            &[bound.count, mode],
        )?;
        self.told.named(sheet, bound.candidate)?;
        sheet.fill(b"<td class='v'>$\n", &[bound.jobs])?;
        if 0 < bound.rivals {
            sheet.fill(
                b"<tr><td>other tasks of its transaction<td class='v'>@<td>the same<td class='v'>$\n",
                &[mode, bound.rivals],
            )?;
        }
        self.others(sheet)?;
        sheet.fill(
            b"<tfoot><tr><td>completion<td><td><td class='v'>$</table>\n",
            &[bound.completion],
        )?;
        self.arrived(sheet)
    }

    // One task of its transaction, at place j of it, where it is the task itself or charges something.
    fn lane(&self, sheet: &mut Sheet, j: usize, lane: Lane) -> io::Result<()> {
        let table = self.told.table;
        let owner = self.task.owner;
        let other = (Table::first(table, owner) as usize).saturating_add(j);
        let itself = other == self.task.number;
        if !itself && lane.ticks == 0 {
            return Ok(());
        }
        let period = u64::from(Table::period(table, owner));
        let end = self.bound.completion;
        let (charge, most) = if itself {
            (self.bound.jobs, self.bound.count)
        } else {
            (lane.ticks, counted(lane, period, end))
        };
        let jobs = Jobs {
            itself,
            phase: lane.phase,
            held: lane.held,
            period,
            time: u64::from(Table::time(table, other, self.bound.mode)),
            most,
            end,
        };
        sheet.put(b"<tr><th scope='row'>")?;
        self.told.named(sheet, other)?;
        sheet.fill(
            b"<td class='v'>$<td class='v'>$<td class='v'>$<td>",
            &[lane.phase, lane.held, charge],
        )?;
        jobs.draw(sheet)?;
        sheet.put(b"\n")
    }

    // The busy time on its own axis: all parts, and the jobs of the transaction at their phases.
    fn picture(&self, sheet: &mut Sheet) -> io::Result<()> {
        let end = self.bound.completion;
        sheet.fill(
            b"<table class='busy'><caption class='h'>Its busy time: the jobs of its transaction from the critical instant on</caption><thead><tr><th scope='col'>busy time<th scope='col' class='v'>phase<th scope='col' class='v'>held back<th scope='col' class='v'>charges<th scope='col'>ticks 0 to $ from the critical instant on<tbody>\n<tr><th scope='row'>all parts<td><td><td class='v'>$<td><svg viewBox='0 0 @ 20' preserveAspectRatio='none' aria-hidden='true'>",
            &[end, end, end],
        )?;
        bars::pieces(sheet, self.bound, 0)?;
        sheet.put(b"</svg>\n")?;
        for (j, lane) in self.bound.lanes.iter().enumerate() {
            self.lane(sheet, j, *lane)?;
        }
        sheet.put(b"</table>\n")
    }

    // All that is shown under its line.
    pub(crate) fn show(&self, sheet: &mut Sheet) -> io::Result<()> {
        self.parts(sheet)?;
        self.picture(sheet)
    }
}
