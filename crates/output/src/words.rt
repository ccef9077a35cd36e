// The words that a program is started with, its arguments.
use std::env::{Env, FillError};
use std::io::Print;

// More bytes than any word has.
const MOST: usize = 32;

// Which words: those that a program knows, or those that it was given.
#[derive(Clone, Copy, Default)]
pub struct Words {
    pub verdict: bool,
    pub open: bool,
    pub all: bool,
    pub colour: bool,
    pub aligned: bool,
    pub explain: bool,
}

impl Words {
    // Adds a word, and says whether it is one of those that a program knows.
    fn add(&mut self, known: Words, word: &[u8]) -> bool {
        match word {
            b"verdict" if known.verdict => self.verdict = true,
            b"open" if known.open => self.open = true,
            b"all" if known.all => self.all = true,
            b"colour" if known.colour => self.colour = true,
            b"aligned" if known.aligned => self.aligned = true,
            b"explain" if known.explain => self.explain = true,
            _ => return false,
        }
        true
    }
}

fn no_such_word(rt: &HostRuntime, name: &[u8], word: &[u8]) {
    let _ = rt.stderr().write_all(name);
    let _ = rt.stderr().write_all(b": no such word: ");
    let _ = rt.stderr().write_all(word);
    let _ = rt.stderr().write_all(b"\n");
}

// Which of the words that a program knows it was given, in any order. Where some word is not known, standard error says which: of one
// that is too long to be a word its beginning.
pub(crate) fn given(rt: &HostRuntime, name: &[u8], known: Words) -> Option<Words> {
    let mut all = Words::default();
    let mut text = [0u8; MOST];
    for i in 1..usize::MAX {
        let n = match rt.arg(i, &mut text) {
            Ok(n) => n,
            Err(FillError::TooLong) => MOST,
            Err(FillError::NotPresent) => break,
        };
        let word = &text[..n];
        if !all.add(known, word) {
            no_such_word(rt, name, word);
            return None;
        }
    }
    Some(all)
}
