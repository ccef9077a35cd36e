// A page of many small pieces: they are laid into a sheet of bytes, which is written when it is full. A form's numbers are told apart
// by a sign each, since nearly every one of them would else be wrapped for its commas.
ghost use Rattle.std.specs.Prelude.{◌≡◌, ◌<◌, ◌≤◌, OnOk, false};
ghost use Rattle.page.specs.Handle.{Writes, whole};
ghost use Rattle.page.specs.Whole.{Keeps};
ghost use Rattle.page.specs.Plain.{is_plain};

use crate::handle::Out;
use crate::numbers::Grouped;
use std::fmt::{Display, InlineText};
use std::io;

// How many bytes a sheet has room for.
pub const SHEET: usize = 65_536;

// As wide as a number may be with its commas.
const WIDEST: usize = 26;

// What is shown where a character is not known.
const UNKNOWN: &[u8] = b"&#65533;";

// The bytes that are laid.
#[derive(Drop)]
struct Laid {
    bytes: [u8; SHEET],
    n: usize,
    ghost within: { n ≤ 65_536 },
}

impl Laid {
    fn text(&self) -> &[u8] {
        &self.bytes[..self.n]
    }

    fn push(&mut self, b: u8)
        requires { self.old.n < 65_536 }
    {
        self.bytes[self.n] = b;
        self.n += 1;
    }
}

#[derive(Drop)]
pub struct Sheet {
    laid: Laid,
    pub out: Out,
}

impl Sheet {
    pub fn new(out: Out) -> Sheet
        ensures { result.out ≡ out }
    {
        let bytes = [0; SHEET];
        Sheet {
            laid: Laid { bytes, n: 0 },
            out,
        }
    }

    // Writes what is laid.
    pub fn flush(&mut self) -> io::Result<()>
        ensures writes { Writes self.old.out self.new.out result }
        ensures empty { OnOk result (self.new.laid.n ≡ 0) }
    {
        self.out.say(self.laid.text())?;
        self.laid.n = 0;
        Ok(())
    }

    // Lays a byte. Where the sheet is full and cannot be written the byte is lost, which the handle keeps: a page has many bytes, and an
    // answer for each took twice the time.
    #[tactic(auto, unfolding(crate::specs::Whole::taken))]
    fn lay(&mut self, b: u8)
        ensures keeps { Keeps (whole self.old.out) (whole self.new.out) }
        ensures stays { whole self.old.out ≡ false → self.new.out ≡ self.old.out }
    {
        if self.laid.n < SHEET || self.flush().is_ok() {
            self.laid.push(b);
        }
    }

    // A text as it is.
    pub fn put(&mut self, text: &[u8]) -> io::Result<()>
        ensures { Writes self.old.out self.new.out result }
    {
        self.out.state()?;
        for b in text {
            self.lay(*b);
        }
        self.out.state()
    }

    // Lays a number, as it shows itself.
    fn show<D: Display + Drop>(&mut self, n: D) {
        for b in InlineText::<WIDEST>::of(n).as_str().as_bytes() {
            self.lay(*b);
        }
    }

    // A form with its numbers, one for each mark: @ as digits alone, $ with commas.
    pub fn fill(&mut self, form: &[u8], numbers: &[u64]) -> io::Result<()>
        ensures { Writes self.old.out self.new.out result }
    {
        self.out.state()?;
        let mut numbers = numbers.iter().copied();
        for b in form {
            match *b {
                b'@' => self.show(numbers.next().unwrap_or(0)),
                b'$' => self.show(Grouped(numbers.next().unwrap_or(0))),
                b => self.lay(b),
            }
        }
        self.out.state()
    }

    // A byte as two digits of base 16.
    pub fn byte(&mut self, b: u8) -> io::Result<()>
        ensures { Writes self.old.out self.new.out result }
    {
        self.out.state()?;
        self.show(format_args!("{b:02x}"));
        self.out.state()
    }

    fn character(&mut self, c: char) -> io::Result<()>
        ensures { Writes self.old.out self.new.out result }
    {
        if stands(c) {
            self.put(c.encode_utf8(&mut [0u8; 4]).as_bytes())
        } else {
            self.put(instead(c))
        }
    }

    // Any bytes as text of a page: nothing in them is markup, and what is no UTF-8 is shown as characters that are not known.
    pub fn escaped(&mut self, text: &[u8]) -> io::Result<()>
        ensures { Writes self.old.out self.new.out result }
    {
        self.out.state()?;
        for chunk in text.utf8_chunks() {
            for c in chunk.valid().chars() {
                self.character(c)?;
            }
            for _ in chunk.invalid() {
                self.put(UNKNOWN)?;
            }
        }
        Ok(())
    }
}

// Whether a character of ASCII stands as itself in a page.
#[tactic(auto, unfolding(crate::specs::Plain::is_plain))]
fn is_plain(c: char) -> bool
    ensures { result ≡ is_plain c }
{
    matches!(c, ' '..='~') && !matches!(c, '"' | '&' | '\'' | '<' | '>')
}

// Whether any character does.
fn stands(c: char) -> bool {
    is_plain(c) || !(c.is_ascii() || c.is_control())
}

// What is shown for one that does not: its name where it would be markup.
fn instead(c: char) -> &'static [u8] {
    match c {
        '"' => b"&quot;",
        '&' => b"&amp;",
        '\'' => b"&#39;",
        '<' => b"&lt;",
        '>' => b"&gt;",
        _ => UNKNOWN,
    }
}
