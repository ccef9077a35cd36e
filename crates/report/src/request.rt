// What the program is started with: which piece of a page, and what stands on which descriptor.
//     report PIECE VERDICT NAMES AGAINST KEY NAME OLD
// PIECE is page, a whole page of one table; entry, one of several tables, its line of the summary first; top, middle or bottom, what stands
// around these. VERDICT, NAMES and AGAINST are that word where a verdict is asked for, where names stand on descriptor 4, and where the
// image to compare with stands on descriptor 5; else anything. KEY is a number that tells tables of one page apart, NAME and OLD are what is shown.
use std::env::Env;

#[derive(Clone, Copy, PartialEq, Eq)]
pub(crate) enum Piece {
    Page,
    Entry,
    Top,
    Middle,
    Bottom,
}

impl Piece {
    fn of_word(rt: &HostRuntime) -> Piece {
        match argument(rt, 1, &mut [0; WORD]) {
            b"page" => Piece::Page,
            b"entry" => Piece::Entry,
            b"top" => Piece::Top,
            b"middle" => Piece::Middle,
            _ => Piece::Bottom,
        }
    }
}

#[derive(Clone, Copy)]
pub(crate) struct Asked {
    pub(crate) piece: Piece,
    pub(crate) verdict: bool,
    pub(crate) names: bool,
    pub(crate) against: bool,
    pub(crate) key: u64,
}

// As long as a path may be.
pub(crate) const MOST: usize = 4096;

// As long as any other word may be.
const WORD: usize = 16;

// An argument: nothing where there is none of that number or it is longer than the buffer.
pub(crate) fn argument<'a>(rt: &HostRuntime, i: usize, text: &'a mut [u8]) -> &'a [u8] {
    match rt.arg(i, text) {
        Ok(n) => &text[..n],
        Err(_) => b"",
    }
}

fn is_word(rt: &HostRuntime, i: usize, word: &[u8]) -> bool {
    argument(rt, i, &mut [0; WORD]) == word
}

// The number that some digits say, its last nine where there are more.
fn value(text: &[u8]) -> u64 {
    text.iter()
        .fold(0, |n, b| n % 100_000_000 * 10 + u64::from(b % 16 % 10))
}

impl Asked {
    pub(crate) fn of_words(rt: &HostRuntime) -> Asked {
        Asked {
            piece: Piece::of_word(rt),
            verdict: is_word(rt, 2, b"verdict"),
            names: is_word(rt, 3, b"names"),
            against: is_word(rt, 4, b"against"),
            key: value(argument(rt, 5, &mut [0; WORD])),
        }
    }
}
