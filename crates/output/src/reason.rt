// Why a read or a write failed, in the system's words: an error's text as far as its number.
ghost use Rattle.std.specs.Prelude.{◌≤◌};

use std::fmt::Write;
use std::io::Print;
use std::{fmt, io};

// More bytes than the system has for any reason.
const MOST: usize = 256;

// What stands behind the words.
const NUMBER: &[u8] = b" (os error ";

// The beginning of a text.
#[derive(Drop)]
struct Text {
    bytes: [u8; MOST],
    n: usize,
    ghost within: { n ≤ 256 },
}

impl Text {
    fn new() -> Text {
        Text {
            bytes: [0; MOST],
            n: 0,
        }
    }

    fn as_slice(&self) -> &[u8] {
        &self.bytes[..self.n]
    }
}

impl fmt::Write for Text {
    fn write_str(&mut self, s: &str) -> fmt::Result {
        for b in s.as_bytes() {
            if self.n == MOST {
                return Err(fmt::Error);
            }
            self.bytes[self.n] = *b;
            self.n += 1;
        }
        Ok(())
    }
}

// A text as far as the number of an error.
fn words(text: &[u8]) -> &[u8] {
    let end = text.windows(NUMBER.len()).position(|part| part == NUMBER);
    &text[..end.unwrap_or(text.len())]
}

// A colon, the reason, and the end of the line.
pub(crate) fn tell(rt: &HostRuntime, why: io::Error) {
    let mut text = Text::new();
    let _ = write!(text, "{why}");
    let _ = rt.stderr().write_all(b": ");
    let _ = rt.stderr().write_all(words(text.as_slice()));
    let _ = rt.stderr().write_all(b"\n");
}
