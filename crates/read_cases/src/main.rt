// Worked images, and what reading says of each. Standard input has an image to a line, in hexadecimal, each below a line
// that starts with '#' and says what it shows. Such a line is copied; an image gives its number and place, and where it
// is accepted the fields of its table, read through the lent row.
#![tactic(auto)]

ghost use Rattle.std.specs.Prelude.{◌≤◌, ◌<◌, length};

use refusals::Numbered;
use row::Table;
use std::fmt;
use std::fmt::Write;
use std::io::{Print, Read, Stdin, Stdout};

// The bytes of standard input that are read.
const TEXT: usize = 65_536;

// Standard output. What can't be written is lost, and no writer fails.
#[derive(Drop)]
struct Out(Stdout);

impl Out {
    fn bytes(&mut self, text: &[u8]) {
        let _ = self.0.write_all(text);
    }
}

impl fmt::Write for Out {
    fn write_str(&mut self, text: &str) -> fmt::Result {
        self.bytes(text.as_bytes());
        Ok(())
    }
}

fn main(rt: HostRuntime) {
    let mut text = [0u8; TEXT];
    let n = filled(&mut rt.stdin(), &mut text);
    let mut out = Out(rt.stdout());
    for line in text[..n].split_inclusive(|b| *b == b'\n') {
        let _ = show_line(&mut out, line.strip_suffix(b"\n").unwrap_or(line));
    }
}

// Fills the buffer, to its end or to the end of the input; where reading fails, the input ends. So it is not `input::take_in`, which tells
// of the failure and not of what was read before.
fn filled(from: &mut Stdin, text: &mut [u8]) -> usize
    ensures { result ≤ length text.new }
{
    // no `for`: a turn goes on by as many bytes as its read gave
    let mut n: usize = 0;
    while n < text.len() {
        let more = from.read(&mut text[n..]).unwrap_or(0);
        if more == 0 {
            break;
        }
        n += more;
    }
    n
}

fn show_line(out: &mut Out, line: &[u8]) -> fmt::Result {
    if line.starts_with(b"#") {
        out.bytes(line);
        out.bytes(b"\n");
        return Ok(());
    }
    let mut bytes = [0u8; input::BUFFER];
    let n = decoded(line, &mut bytes);
    show(out, &bytes[..n])
}

// The bytes that pairs of hexadecimal digits say, as far as there are digits and room.
fn decoded(text: &[u8], bytes: &mut [u8]) -> usize
    ensures { result ≤ length bytes.new }
{
    for (byte, pair) in bytes.iter_mut().zip(text.chunks_exact(2)) {
        *byte = digit(pair[0]) * 16 + digit(pair[1]);
    }
    bytes.len().min(text.len() / 2)
}

fn digit(b: u8) -> u8
    ensures { result < 16 }
{
    match b {
        b'0'..=b'9' => b - b'0',
        b'a'..=b'f' => b - b'a' + 10,
        _ => 0,
    }
}

fn show(out: &mut Out, image: &[u8]) -> fmt::Result {
    let reading = image::read(image);
    let answer = reading.answer;
    write!(out, "{} {}\n", answer.number(), answer.place())?;
    if answer.is_ok() {
        show_table(out, &reading.table.cells)?;
    }
    Ok(())
}

fn show_table(out: &mut Out, row: &[u32]) -> fmt::Result {
    write!(
        out,
        "edition {} frame {} transactions {} tasks {}\n",
        Table::edition(row),
        Table::frame(row),
        Table::transactions(row),
        Table::in_all(row),
    )?;
    for u in 0..Table::transactions(row) as usize {
        show_transaction(out, row, u)?;
    }
    Ok(())
}

fn show_transaction(out: &mut Out, row: &[u32], u: usize) -> fmt::Result {
    let first = Table::first(row, u);
    let tasks = Table::tasks(row, u);
    write!(
        out,
        "transaction {u} period {} modes {} first {first} tasks {tasks}\n",
        Table::period(row, u),
        Table::modes(row, u),
    )?;
    for j in 0..tasks as usize {
        // the transaction of a task, and its place there
        write!(out, "task {u} {j}")?;
        show_task(out, row, first as usize + j, Table::modes(row, u) as usize)?;
    }
    Ok(())
}

// The task with number k, which has so many modes.
fn show_task(out: &mut Out, row: &[u32], k: usize, modes: usize) -> fmt::Result {
    write!(
        out,
        " offset {} jitter {} blocking {} deadline {} priority {} times",
        Table::offset(row, k),
        Table::jitter(row, k),
        Table::blocking(row, k),
        Table::deadline(row, k),
        Table::priority(row, k),
    )?;
    for m in 0..modes {
        write!(out, " {}", Table::time(row, k, m))?;
    }
    writeln!(out)
}
