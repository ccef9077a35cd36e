// Standard output as the writers hold it.
ghost use Rattle.std.specs.Prelude.{◌≡◌, ◌≤◌, pos, Some, true};
ghost use Rattle.std.specs.IoError.{raw_os_error};
ghost use Rattle.page.specs.Handle.{Agrees, Writes, number_of, whole};

use crate::numbers::Grouped;
use std::fmt::{Display, Formatter};
use std::io::{Error, Print, Stdout};
use std::{fmt, io};

// The width of a column of numbers that are aligned.
const ALIGNED: usize = 9;

// As many bytes as the text of one `write!` mostly has.
const TEXT: usize = 128;

// Standard output, and errno's number of the write that failed. Behind it nothing is written.
#[derive(Clone, Copy)]
pub struct Out {
    to: Stdout,
    lost: Option<i32>,
}

impl Out {
    pub fn new(to: Stdout) -> Out
        ensures reason { number_of result ≡ pos 0 }
        ensures whole { whole result ≡ true }
    {
        Out { to, lost: None }
    }

    // Why a write failed.
    pub fn reason(&self) -> Error
        ensures { raw_os_error result ≡ Some (number_of self.now) }
    {
        Error::from_raw_os_error(self.lost.unwrap_or(0))
    }

    // Whether every write so far was taken, or why one was not.
    pub(crate) fn state(&self) -> io::Result<()>
        ensures { Agrees self.now result }
    {
        match self.lost {
            None => Ok(()),
            Some(_) => Err(self.reason()),
        }
    }

    #[tactic(auto, unfolding(crate::specs::Whole::taken))]
    pub fn say(&mut self, text: &[u8]) -> io::Result<()>
        ensures { Writes self.old self.new result }
    {
        self.state()?; // behind a write that failed nothing is written
        match self.to.write_all(text) {
            Ok(()) => Ok(()),
            Err(e) => {
                self.lost = Some(e.raw_os_error().unwrap_or(0));
                self.state()
            }
        }
    }

    // What `write!` calls.
    #[tactic(auto, unfolding(crate::specs::Whole::taken))]
    pub fn write_fmt<D: Display + Drop>(&mut self, text: D) -> io::Result<()>
        ensures { Writes self.old self.new result }
    {
        self.state()?;
        let mut pieces = Formatter::new(Pieces::new(*self));
        let told = pieces.write(text);
        let mut pieces = pieces.into_inner();
        let written = pieces.flush();
        *self = pieces.out;
        // a text that could not be made is lost too
        if told.is_err() {
            self.lost = self.lost.or(Some(0));
            return self.state();
        }
        written
    }

    // A number, with blanks before it to fill a column.
    pub fn number(&mut self, n: u64, width: usize) -> io::Result<()>
        ensures { Writes self.old self.new result }
    {
        write!(self, "{n:>width$}")
    }

    // The same with a comma between thousands.
    pub fn grouped(&mut self, n: u64, width: usize) -> io::Result<()>
        ensures { Writes self.old self.new result }
    {
        write!(self, "{:>width$}", Grouped(n))
    }

    // A number behind a blank, in a column where the numbers are aligned.
    pub fn cell(&mut self, n: u32, aligned: bool) -> io::Result<()>
        ensures { Writes self.old self.new result }
    {
        let width = if aligned { ALIGNED } else { 0 };
        write!(self, " {n:>width$}")
    }

    // A number with commas between two texts.
    pub fn count(&mut self, before: &[u8], n: u64, after: &[u8]) -> io::Result<()>
        ensures { Writes self.old self.new result }
    {
        self.say(before)?;
        self.grouped(n, 0)?;
        self.say(after)
    }

    // A line in red stands between the two; the line feed is behind it.
    pub fn begin_line(&mut self, red: bool) -> io::Result<()>
        ensures { Writes self.old self.new result }
    {
        if red {
            self.say(b"\x1b[31m")
        } else {
            self.state()
        }
    }

    pub fn end_line(&mut self, red: bool) -> io::Result<()>
        ensures { Writes self.old self.new result }
    {
        if red {
            self.say(b"\x1b[0m\n")
        } else {
            self.say(b"\n")
        }
    }
}

// The bytes that are gathered.
#[derive(Drop)]
struct Gathered {
    bytes: [u8; TEXT],
    n: usize,
    ghost within: { n ≤ 128 },
}

impl Gathered {
    fn text(&self) -> &[u8] {
        &self.bytes[..self.n]
    }
}

// The handle as the pieces of a text come to it. They are gathered, since a write of its own for each costs more than its text.
#[derive(Drop)]
struct Pieces {
    out: Out,
    gathered: Gathered,
}

impl Pieces {
    fn new(out: Out) -> Pieces {
        let bytes = [0; TEXT];
        Pieces {
            out,
            gathered: Gathered { bytes, n: 0 },
        }
    }

    // Writes what is gathered. The handle keeps whether it was taken.
    fn flush(&mut self) -> io::Result<()>
        ensures keeps { Agrees self.new.out result }
        ensures empty { self.new.gathered.n ≡ 0 }
    {
        let written = self.out.say(self.gathered.text());
        self.gathered.n = 0;
        written
    }

    fn push(&mut self, b: u8) {
        if self.gathered.n == TEXT {
            let _ = self.flush();
        }
        self.gathered.bytes[self.gathered.n] = b;
        self.gathered.n += 1;
    }
}

impl fmt::Write for Pieces {
    fn write_str(&mut self, piece: &str) -> fmt::Result {
        for b in piece.as_bytes() {
            self.push(*b);
        }
        Ok(())
    }
}
