// A refusal in words: its number, its reason, and its place by byte, bit and field.
ghost use Rattle.page.specs.Handle.{Writes};

use image::due_at;
use page::{Grouped, Out};
use places::Field;
use refusals::{Fault, Refusal};
use std::io;

fn words(refusal: Refusal) -> &'static str {
    match refusal {
        Refusal::EndsInside => "it ends inside a field",
        Refusal::EditionUnknown => "edition is not 1",
        Refusal::FrameZero => "the major frame is 0",
        Refusal::TransactionCount => "not 1 to 63 transactions",
        Refusal::PeriodUnfit => "a period that is 0 or does not divide the major frame",
        Refusal::ModeCount => "not 1 to 8 modes",
        Refusal::TaskCount => "not 1 to 16 tasks in a transaction, or more than 128 in all",
        Refusal::DeadlineZero => "a deadline of 0",
        Refusal::NeverRuns => "a task with time 0 in every mode",
        Refusal::PaddingSet => "a padding bit is 1",
        Refusal::BytesFollow => "bytes follow the table",
        Refusal::NoRoom => "too few cells for the answers",
        Refusal::NoTask => "no task of that number",
        Refusal::DeadlineShort => "a deadline below offset plus greatest time",
        Refusal::TooLarge => "a number too large for its field",
        Refusal::BufferShort => "the buffer is too short",
    }
}

// The reason; of a deadline that nobody could keep with its numbers, where some field of a task holds that bit position.
fn reason(out: &mut Out, image: &[u8], fault: Fault) -> io::Result<()>
    ensures { Writes out.old out.new result }
{
    if fault.refusal == Refusal::DeadlineShort {
        if let Some(due) = due_at(image, fault.place) {
            return write!(
                out,
                "a deadline of {}, below offset {} plus greatest time {}",
                Grouped(u64::from(due.deadline)),
                Grouped(u64::from(due.offset)),
                Grouped(u64::from(due.time)),
            );
        }
    }
    out.say(words(fault.refusal).as_bytes())
}

fn named(out: &mut Out, at: Field, refusal: Refusal) -> io::Result<()>
    ensures { Writes out.old out.new result }
{
    match at {
        Field::Edition => write!(out, "edition"),
        Field::Frame => write!(out, "major frame"),
        Field::Transactions => write!(out, "number of transactions"),
        Field::Period(u) => write!(out, "period of transaction {u}"),
        Field::Modes(u) => write!(out, "number of modes of transaction {u}"),
        Field::Tasks(u) => write!(out, "number of tasks of transaction {u}"),
        Field::Offset(u, k) => write!(out, "offset of task {k}, transaction {u}"),
        Field::Jitter(u, k) => write!(out, "jitter of task {k}, transaction {u}"),
        Field::Blocking(u, k) => write!(out, "blocking of task {k}, transaction {u}"),
        Field::Deadline(u, k) => write!(out, "deadline of task {k}, transaction {u}"),
        Field::Priority(u, k) => write!(out, "priority of task {k}, transaction {u}"),
        Field::Time(u, k, m) => {
            write!(
                out,
                "execution time of task {k} in mode {m}, transaction {u}"
            )
        }
        Field::Behind => match refusal {
            Refusal::BytesFollow => write!(out, "the first byte behind the table"),
            _ => write!(out, "padding"),
        },
    }
}

// The line for an image that is refused.
pub fn refused(out: &mut Out, image: &[u8], fault: Fault) -> io::Result<()>
    ensures { Writes out.old out.new result }
{
    let at = fault.place;
    write!(out, "image refused ({}): ", fault.refusal.number())?;
    reason(out, image, fault)?;
    write!(out, ", at byte {}, bit {}: ", at / 8, at % 8)?;
    named(out, places::field_at(image, at), fault.refusal)?;
    out.say(b"\n")
}
