// Who pushed a task: the part of one transaction in its bound, asked one transaction at a time, and each answer for a host in C, as one
// number and, where there is something to give, the cells of it; the cells of every task too, which say who gave each bound. It knows
// what the answers promise, and not how they are found.
#![tactic(auto)]

ghost use Rattle.std.specs.Prelude.{◌<◌, ◌^◌};
ghost use Rattle.parts.specs.Parts.{Makes, ChargesOne, HasPart, part_place};
ghost use Rattle.asked.specs.Asked.{TellsFilled, TellsMade, TellsPart, TellsAs, is_whole};

use parts::{Charge, Part, Parts};
use refusals::{Fault, Numbered};

// The part of one transaction in the bound of one task.
pub fn part(image: &[u8], task: u32, budget: u32, transaction: u32) -> Result<Part, Fault>
    ensures { HasPart image.now task budget transaction result }
{
    let Some(parts) = answers::parts(image, task, budget)? else {
        return Ok(Part::NoBound);
    };
    answers::charge(image, task, transaction, false, parts.completion)
}

// The cells of every task.
pub fn tell_cells(image: &[u8], budget: u32, cells: &mut [u32]) -> u64
    ensures { TellsFilled image.now budget cells.old cells.new result }
{
    let filled = answers::cells(image, budget, cells);
    told::tell(&filled)
}

// What the bound of one task is made of, into the cells.
pub fn tell_parts(image: &[u8], task: u32, budget: u32, cells: &mut [i64; Parts::COUNT]) -> u64
    ensures { TellsMade (Makes image.now task budget) cells.old cells.new result }
{
    let made = answers::parts(image, task, budget);
    Parts::put(made, cells);
    // by the names of the cases, and so not by `tell`
    told::pair(made.number(), Parts::place(made) as u32)
}

// An answer on one transaction, into the cells.
fn tell(part: Result<Part, Fault>, cells: &mut [u64; Charge::COUNT]) -> u64
    requires { part_place part < 2 ^ 32 }
    ensures { TellsAs part cells.old cells.new result }
{
    Part::put(part, cells);
    told::tell(&part)
}

// The part of one transaction in the bound of one task, into the cells.
pub fn tell_part(
    image: &[u8],
    task: u32,
    budget: u32,
    transaction: u32,
    cells: &mut [u64; Charge::COUNT],
) -> u64
    ensures { TellsPart (HasPart image.now task budget transaction) cells.old cells.new result }
{
    tell(part(image, task, budget, transaction), cells)
}

// The greatest charge of one transaction against one task by t, into the cells: what is imposed where `whole` is 0, else what is
// released.
pub fn tell_charge(
    image: &[u8],
    task: u32,
    transaction: u32,
    whole: u32,
    t: u32,
    cells: &mut [u64; Charge::COUNT],
) -> u64
    ensures { TellsPart (ChargesOne image.now task transaction (is_whole whole) t) cells.old cells.new result }
{
    tell(
        answers::charge(image, task, transaction, whole != 0, t),
        cells,
    )
}
