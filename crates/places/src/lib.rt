// Which field of an image, and which task, holds a bit position, for any bytes and any position: what a refusal's place is called at the
// desk. It knows the places of an image's fields; it knows nothing of how an image is read, or of what a field is for.
#![tactic(auto)]

ghost use Rattle.std.specs.Prelude.{◌≡◌, ◌+◌, ◌^◌, ◌<◌, ◌≤◌};
ghost use Rattle.format.specs.Places.{first_at, task_width};
ghost use Rattle.format.specs.Said.{modes_in, tasks_in};
ghost use Rattle.places.specs.Held.{in_header, in_head, in_task, named, Held};
ghost use Rattle.places.specs.Owner.{OwnedBy, SpotAt};
ghost use Rattle.places.specs.Find.{header_field_at, head_field_at, task_field_at, part_at};

use row::{Table, Task, Transaction};

// A field of an image: by the number of its transaction, the number of its task in the whole table, and the mode of a time.
#[derive(Clone, Copy)]
pub enum Field {
    Edition,
    Frame,
    Transactions,
    Period(usize),
    Modes(usize),
    Tasks(usize),
    Offset(usize, usize),
    Jitter(usize, usize),
    Blocking(usize, usize),
    Deadline(usize, usize),
    Priority(usize, usize),
    Time(usize, usize, usize),
    // Behind the last field: padding, or what follows.
    Behind,
}

// Where a task starts, as a bit position, and how many modes it has.
#[derive(Clone, Copy)]
pub struct Spot {
    pub at: usize,
    pub modes: usize,
}

// A transaction of an image: its number, how many tasks stand before it, its modes, and where it starts.
#[derive(Clone, Copy)]
struct Owner {
    transaction: usize,
    before: usize,
    modes: usize,
    at: usize,
}

// The field that holds a bit position, which counts from the most significant bit of the first byte.
pub fn field_at(image: &[u8], place: usize) -> Field
    ensures { Held image.now place result }
{
    if place < Table::FIRST_AT {
        return in_header(place);
    }
    match owner_at(image, place) {
        Some(owner) => in_transaction(owner, place - owner.at),
        None => Field::Behind,
    }
}

// The task of which some field holds a bit position.
pub fn task_at(image: &[u8], place: usize) -> Option<Spot>
    ensures { SpotAt image.now place result }
{
    if place < Table::FIRST_AT {
        return None;
    }
    let owner = owner_at(image, place)?;
    let inner = (place - owner.at).checked_sub(Transaction::WIDTH)?;
    Some(Spot {
        at: place - inner % task_width(owner.modes),
        modes: owner.modes,
    })
}

// The transaction that a bit position behind the header lies in.
fn owner_at(image: &[u8], place: usize) -> Option<Owner>
    requires { first_at ≤ place }
    ensures { OwnedBy image.now place result }
{
    let count = bits::value(image, Table::COUNT_AT, Table::TRANSACTIONS_WIDTH);
    let mut before: usize = 0;
    let mut at = Table::FIRST_AT;
    for u in 0..count as usize {
        let modes = modes_at(image, at);
        let tasks = tasks_at(image, at);
        let end = at + Transaction::WIDTH + tasks * task_width(modes);
        if place < end {
            return Some(Owner {
                transaction: u,
                before,
                modes,
                at,
            });
        }
        before += tasks;
        at = end;
    }
    None
}

// What the image says of the transaction that starts at a bit position.
fn modes_at(image: &[u8], at: usize) -> usize
    requires { at < 2 ^ 32 }
    ensures is { result ≡ modes_in image.now at }
    ensures small { result < 16 }
{
    bits::value(image, at + Transaction::MODES_AT, Transaction::MODES_WIDTH) as usize
}

fn tasks_at(image: &[u8], at: usize) -> usize
    requires { at < 2 ^ 32 }
    ensures is { result ≡ tasks_in image.now at }
    ensures small { result < 32 }
{
    bits::value(image, at + Transaction::TASKS_AT, Transaction::TASKS_WIDTH) as usize
}

// The bits of a task of so many modes.
fn task_width(modes: usize) -> usize
    requires { modes < 16 }
    ensures { result ≡ task_width modes }
{
    Task::TIMES_AT + modes * Task::TIME_WIDTH
}

#[tactic(auto, using(std::proofs::lemmas::Bool::Decides::nat_tests))]
fn in_header(place: usize) -> Field
    ensures { result ≡ in_header (header_field_at place) }
{
    if place < Table::FRAME_AT {
        Field::Edition
    } else if place < Table::COUNT_AT {
        Field::Frame
    } else {
        Field::Transactions
    }
}

// The field so many bits behind the start of a transaction.
#[tactic(auto, using(std::proofs::lemmas::Bool::Decides::nat_tests), unfolding(crate::specs::Find::part_at))]
fn in_transaction(owner: Owner, rest: usize) -> Field
    requires before_bound { owner.before < 2 ^ 32 }
    requires modes_bound { owner.modes < 16 }
    requires rest_bound { rest < 2 ^ 32 }
    ensures { result ≡ named (λ v j. owner.before + j) (part_at owner.transaction owner.modes rest) }
{
    if rest < Transaction::WIDTH {
        return in_head(owner.transaction, rest);
    }
    let inner = rest - Transaction::WIDTH;
    let width = task_width(owner.modes);
    in_task(
        owner.transaction,
        owner.before + inner / width,
        inner % width,
    )
}

#[tactic(auto, using(std::proofs::lemmas::Bool::Decides::nat_tests))]
fn in_head(u: usize, rest: usize) -> Field
    ensures { result ≡ in_head u (head_field_at rest) }
{
    if rest < Transaction::MODES_AT {
        Field::Period(u)
    } else if rest < Transaction::TASKS_AT {
        Field::Modes(u)
    } else {
        Field::Tasks(u)
    }
}

// The field so many bits behind the start of task number k, a task of transaction u.
#[tactic(auto, using(std::proofs::lemmas::Bool::Decides::nat_tests))]
fn in_task(u: usize, k: usize, rest: usize) -> Field
    ensures { result ≡ in_task u k (task_field_at rest) }
{
    if rest < Task::JITTER_AT {
        Field::Offset(u, k)
    } else if rest < Task::BLOCKING_AT {
        Field::Jitter(u, k)
    } else if rest < Task::DEADLINE_AT {
        Field::Blocking(u, k)
    } else if rest < Task::PRIORITY_AT {
        Field::Deadline(u, k)
    } else if rest < Task::TIMES_AT {
        Field::Priority(u, k)
    } else {
        Field::Time(u, k, (rest - Task::TIMES_AT) / Task::TIME_WIDTH)
    }
}
