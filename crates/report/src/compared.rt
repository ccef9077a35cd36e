// What changed since another table of the same shape.
use super::facts::Fact;
use super::{gather, top};
use page::Sheet;
use std::cmp::Ordering;
use std::io;
use sumpcandle::Filled;

// The table to compare with.
#[derive(Clone, Copy)]
pub(crate) struct Old<'a> {
    pub(crate) image: &'a [u8],
    pub(crate) name: &'a [u8],
}

// How it stands with it.
#[derive(Clone, Copy)]
pub(crate) enum Outcome {
    Refused,
    // It has other transactions, or other tasks in them.
    Unlike,
    Compared,
}

// How many bounds are the same, greater and less, how many stand in one of the two tables alone, and in neither.
#[derive(Clone, Copy, Default)]
struct Tally {
    same: u64,
    more: u64,
    fewer: u64,
    one: u64,
    none: u64,
}

impl Tally {
    fn new(facts: &[Fact]) -> Tally {
        let mut tally = Tally::default();
        for fact in facts {
            let count = match (fact.ticks(), fact.old) {
                (None, None) => &mut tally.none,
                (Some(new), Some(old)) => match new.cmp(&old) {
                    Ordering::Equal => &mut tally.same,
                    Ordering::Greater => &mut tally.more,
                    Ordering::Less => &mut tally.fewer,
                },
                _ => &mut tally.one,
            };
            *count = count.saturating_add(1);
        }
        tally
    }
}

impl Old<'_> {
    // Its bounds beside those of this one.
    pub(crate) fn compare(self, table: &[u32], facts: &mut [Fact]) -> Outcome {
        let mut rows = [0u32; sumpcandle::CELLS];
        if sumpcandle::cells(self.image, input::BUDGET, &mut rows).is_err() {
            return Outcome::Refused;
        }
        let before = image::read(self.image).table;
        if !gather::alike(table, &before.cells) {
            return Outcome::Unlike;
        }
        gather::old_bounds(&rows, facts);
        Outcome::Compared
    }

    // The sentence on it.
    pub(crate) fn told(
        self,
        sheet: &mut Sheet,
        outcome: Outcome,
        facts: &[Fact],
    ) -> io::Result<()> {
        sheet.put(b"<h2>Against ")?;
        sheet.escaped(self.name)?;
        sheet.put(b"</h2>\n<dl><dt>SHA-256<dd>")?;
        top::sum(sheet, self.image)?;
        sheet.put(b"\n</dl>\n<p>")?;
        match outcome {
            Outcome::Refused => sheet.put(b"That table is refused: nothing is compared.")?,
            Outcome::Unlike => sheet.put(
                b"That table has another shape, so tasks of one number need not be the same task: nothing is compared.",
            )?,
            Outcome::Compared => {
                let t = Tally::new(facts);
                sheet.fill(
                    b"Bounds as there: $; greater: $; lesser: $; in one of the two tables alone: $; in neither: $. A dashed mark is the bound there.",
                    &[t.same, t.more, t.fewer, t.one, t.none],
                )?
            }
        }
        sheet.put(b"</p>\n")
    }
}
