// How a program begins, writes and ends: the words that it is started with, the image, an answer with every failed write noticed,
// and a verdict. It knows the refusals and the fields of an image; it knows nothing of the analysis.
#![tactic(auto)]

mod reason;
mod refusing;
mod words;

ghost use Rattle.std.specs.Prelude.{◌≡◌, if◌then◌else◌, IfSome, is_ok};
ghost use Rattle.input.specs.Input.{IsPrefixLen};
ghost use Rattle.page.specs.Whole.{Keeps};

pub use page::{Grouped, Out};
pub use refusing::refused;
use std::fs::OpenOptions;
use std::io;
use std::io::{Print, Write};
pub use words::Words;
use words::given;

// What the runner reads the verdict on, descriptor 3: a program has no exit status.
const VERDICT: &str = "/dev/fd/3";

// What a program found, for the runner.
#[derive(Clone, Copy, PartialEq, Eq)]
pub enum Verdict {
    // Accepted, and every task keeps its deadline or none was asked for.
    Kept,
    // Accepted, and some task is not shown to keep it.
    NotShown,
    Refused,
}

impl Verdict {
    // Of an accepted table, by whether every task is shown to keep its deadline.
    pub fn accepted(kept: bool) -> Verdict
        ensures { result ≡ (if kept then Verdict.Kept else Verdict.NotShown) }
    {
        if kept {
            Verdict::Kept
        } else {
            Verdict::NotShown
        }
    }
}

// Says on standard error what failed, and the system's reason.
pub fn failed(rt: &HostRuntime, name: &[u8], what: &[u8], why: io::Error) {
    let _ = rt.stderr().write_all(name);
    let _ = rt.stderr().write_all(what);
    reason::tell(rt, why);
}

// How a program began: the words that it was given, and how many bytes of the image stand in the buffer.
#[derive(Clone, Copy)]
pub struct Begun {
    pub words: Words,
    pub n: usize,
}

// Takes in the words, of which the program knows these, and the image on standard input. Where it cannot begin, standard error says why.
pub fn begin(rt: &HostRuntime, name: &[u8], known: Words, image: &mut [u8]) -> Option<Begun>
    ensures { IfSome result (λ begun. IsPrefixLen begun.n image.new) }
{
    let words = given(rt, name, known)?;
    match input::take_in(&mut rt.stdin(), image) {
        Ok(n) => Some(Begun { words, n }),
        Err(why) => {
            failed(rt, name, b": the input cannot be read", why);
            None
        }
    }
}

fn tell(rt: &HostRuntime, verdict: Verdict) -> io::Result<()> {
    let line: &[u8] = match verdict {
        Verdict::Kept => b"0\n",
        Verdict::NotShown => b"1\n",
        Verdict::Refused => b"2\n",
    };
    OpenOptions::new()
        .append(true)
        .open(rt, VERDICT)?
        .write_all(line)
}

// A hint, where a text was taken for an image.
fn hint(rt: &HostRuntime, name: &[u8], image: &[u8]) {
    if printable::is_text(image) {
        let _ = rt.stderr().write_all(name);
        let _ = rt.stderr().write_all(
            b": this looks like text or a hex dump, and a table image is neither; a plain hex dump becomes one by xxd -r -p\n",
        );
    }
}

// The verdict, where it is asked for, and whether it was written.
#[tactic(auto, unfolding(page::specs::Whole::taken))]
fn tell_asked(rt: &HostRuntime, name: &[u8], asked: bool, verdict: Verdict) -> bool
    ensures { Keeps asked result }
{
    if !asked {
        return false;
    }
    match tell(rt, verdict) {
        Ok(()) => true,
        Err(why) => {
            failed(rt, name, b": the verdict cannot be written", why);
            false
        }
    }
}

// The end of a program whose answer was written, and found so much, or was not: what went wrong, a hint at a text that was taken for an
// image, and the verdict where it is asked for and the whole answer was written. Whether a verdict was given.
#[tactic(auto, unfolding(page::specs::Whole::taken))]
pub fn end(
    rt: &HostRuntime,
    name: &[u8],
    words: Words,
    image: &[u8],
    answer: io::Result<Verdict>,
) -> bool
    ensures whole { Keeps (is_ok answer) result }
    ensures asked { Keeps words.verdict result }
{
    match answer {
        Ok(verdict) => {
            if verdict == Verdict::Refused {
                hint(rt, name, image);
            }
            tell_asked(rt, name, words.verdict, verdict)
        }
        Err(why) => {
            failed(rt, name, b": the answer cannot be written", why);
            false
        }
    }
}
