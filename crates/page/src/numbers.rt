// Numbers as text, where they are more than the library's.
use std::{fmt, str};

// The digits that a number may have, and its places with the commas between them.
const DIGITS: usize = 20;

const WIDEST: usize = 26;

// A number with a comma between thousands.
#[derive(Clone, Copy)]
pub struct Grouped(pub u64);

impl fmt::Display for Grouped {
    fn fmt<W: fmt::Write>(&self, f: &mut fmt::Formatter<W>) -> fmt::Result {
        // the last digit stands last; a comma stands where no digit is put
        let mut text = [b','; WIDEST];
        let mut at = WIDEST;
        let mut rest = self.0;
        for i in 0..DIGITS {
            at = WIDEST - 1 - i - i / 3;
            text[at] = b'0' + (rest % 10) as u8;
            rest /= 10;
            if rest == 0 {
                break;
            }
        }
        match str::from_utf8(&text[at..]) {
            Ok(digits) => f.pad_integral(true, "", digits),
            Err(_) => Err(fmt::Error),
        }
    }
}
