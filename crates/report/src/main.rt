// A page for the log: what a table is, what is known of its deadlines, and a bar for each task, as one page of HTML that needs nothing
// from outside. It prints and decides nothing: every number of a task is the library's.
#![tactic(auto)]

mod bars;
mod busy;
mod compared;
mod facts;
mod gather;
mod refused;
mod request;
mod style;
mod tasks;
mod top;

ghost use Rattle.std.specs.Prelude.{◌≤◌, IfOk, length};

use bars::Scale;
use compared::{Old, Outcome};
use facts::{Fact, Title, Told};
use output::{Out, Verdict, Words};
use page::Sheet;
use refusals::Fault;
use request::{Asked, Piece};
use row::Table;
use std::fs::File;
use std::io;
use sumpcandle::TaskCells;

// Descriptors 4 and 5.
const NAMES_FILE: &str = "/dev/fd/4";

const OLD_FILE: &str = "/dev/fd/5";

// Room for a name of 120 bytes for each task.
const NAMES: usize = 16_384;

fn words(verdict: bool) -> Words {
    Words {
        verdict,
        ..Words::default()
    }
}

// What could not be read, and why.
#[derive(Clone, Copy)]
struct Unread {
    what: &'static [u8],
    why: io::Error,
}

fn take_file(rt: &HostRuntime, file: &str, buffer: &mut [u8]) -> io::Result<usize>
    ensures { IfOk result (λ n. n ≤ length buffer.new) }
{
    input::take_from(&mut File::open(rt, file)?, buffer)
}

// Nothing is read that is not wanted.
fn take<'a>(
    rt: &HostRuntime,
    wanted: bool,
    file: &str,
    what: &'static [u8],
    buffer: &'a mut [u8],
) -> Result<&'a [u8], Unread> {
    if !wanted {
        return Ok(b"");
    }
    match take_file(rt, file, buffer) {
        Ok(n) => Ok(&buffer[..n]),
        Err(why) => Err(Unread { what, why }),
    }
}

// A table, and what it is told with.
#[derive(Clone, Copy)]
struct Taken<'a> {
    asked: Asked,
    image: &'a [u8],
    title: Title<'a>,
    // A name for each task, one a line.
    names: &'a [u8],
    old: Option<Old<'a>>,
}

impl<'a> Taken<'a> {
    fn new(
        asked: Asked,
        image: &'a [u8],
        name: &'a [u8],
        names: &'a [u8],
        old: &'a [u8],
        old_name: &'a [u8],
    ) -> Taken<'a> {
        let title = Title {
            key: asked.key,
            name,
        };
        let old = Old {
            image: old,
            name: old_name,
        };
        let old = if asked.against { Some(old) } else { None };
        Taken {
            asked,
            image,
            title,
            names,
            old,
        }
    }

    fn ended(&self, sheet: &mut Sheet) -> io::Result<()> {
        sheet.put(b"</article>\n")?;
        if self.asked.piece == Piece::Page {
            sheet.put(b"</body>\n</html>\n")?;
        }
        sheet.flush()
    }

    fn accepted(&self, sheet: &mut Sheet, table: &[u32]) -> io::Result<Verdict> {
        let n = (Table::in_all(table) as usize).min(Table::TASKS);
        let mut facts = [Fact::unknown(); Table::TASKS];
        let mut rows = [0u32; sumpcandle::CELLS];
        gather::names(self.names, &mut facts);
        gather::every(self.image, table, &mut facts, &mut rows);
        let compared = match self.old {
            Some(old) => Some((old, old.compare(table, &mut facts))),
            None => None,
        };
        let told = Told {
            key: self.title.key,
            table,
            tasks: &facts[..n],
            scale: Scale::new(&facts[..n]),
            compared: matches!(compared, Some((_, Outcome::Compared))),
        };
        let open = top::open(told.tasks);
        if self.asked.piece == Piece::Entry {
            top::line(sheet, self.title, n, open)?;
        } else {
            top::begin(sheet, self.title.name)?;
        }
        top::heading(sheet, self.title)?;
        top::verdict(sheet, &told, open)?;
        top::bytes(sheet, self.image)?;
        top::counts(sheet, &told)?;
        if let Some((old, outcome)) = compared {
            old.told(sheet, outcome, told.tasks)?;
        }
        top::reading(sheet)?;
        tasks::every(sheet, &told)?;
        self.ended(sheet)?;
        if TaskCells::all_kept(&rows, n) {
            Ok(Verdict::Kept)
        } else {
            Ok(Verdict::NotShown)
        }
    }

    fn refused(&self, sheet: &mut Sheet, fault: Fault) -> io::Result<Verdict> {
        if self.asked.piece == Piece::Entry {
            top::line_refused(sheet, self.title, fault.refusal.number())?;
        } else {
            top::begin(sheet, self.title.name)?;
        }
        top::heading(sheet, self.title)?;
        top::bytes(sheet, self.image)?;
        refused::place(sheet, self.image, fault)?;
        self.ended(sheet)?;
        Ok(Verdict::Refused)
    }

    fn told(&self, sheet: &mut Sheet) -> io::Result<Verdict> {
        let reading = image::read(self.image);
        match reading.answer {
            Ok(()) => self.accepted(sheet, &reading.table.cells),
            Err(fault) => self.refused(sheet, fault),
        }
    }
}

// The page of one table, or its part of a page of several.
fn table(rt: &HostRuntime, asked: Asked, name: &[u8]) -> Result<(), Unread> {
    let mut image = [0u8; input::BUFFER];
    let n = input::take_in(&mut rt.stdin(), &mut image).map_err(|why| Unread {
        what: b": the input cannot be read",
        why,
    })?;
    let mut names = [0u8; NAMES];
    let what = b": the names cannot be read";
    let names = take(rt, asked.names, NAMES_FILE, what, &mut names)?;
    let mut old = [0u8; input::BUFFER];
    let what = b": the table to compare with cannot be read";
    let old = take(rt, asked.against, OLD_FILE, what, &mut old)?;
    let mut old_name = [0u8; request::MOST];
    let old_name = request::argument(rt, 7, &mut old_name);
    let taken = Taken::new(asked, &image[..n], name, names, old, old_name);
    let mut sheet = Sheet::new(Out::new(rt.stdout()));
    let answer = taken.told(&mut sheet);
    output::end(rt, b"report", words(asked.verdict), taken.image, answer);
    Ok(())
}

// What stands around several tables.
fn around(sheet: &mut Sheet, piece: Piece, title: &[u8]) -> io::Result<Verdict> {
    match piece {
        Piece::Top => top::several(sheet, title)?,
        Piece::Middle => sheet.put(b"</table>\n</header>\n")?,
        _ => sheet.put(b"</body>\n</html>\n")?,
    }
    sheet.flush()?;
    Ok(Verdict::Kept)
}

fn main(rt: HostRuntime) {
    let asked = Asked::of_words(&rt);
    let mut name = [0u8; request::MOST];
    let name = request::argument(&rt, 6, &mut name);
    if matches!(asked.piece, Piece::Page | Piece::Entry) {
        if let Err(unread) = table(&rt, asked, name) {
            output::failed(&rt, b"report", unread.what, unread.why);
        }
        return;
    }
    let mut sheet = Sheet::new(Out::new(rt.stdout()));
    let answer = around(&mut sheet, asked.piece, name);
    output::end(&rt, b"report", words(false), b"", answer);
}
