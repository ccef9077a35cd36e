// Whole cycles of a chain at once: that a chain which has gone through one cycle goes through it again, as laws, and how many
// more cycles there are to count. It knows tables as numbers, and neither a row nor how an evaluation is made.
#![tactic(auto)]

ghost use Rattle.std.specs.Prelude.{◌≡◌};
ghost use Rattle.cycle.specs.Cycle.{times, Rounds};

// How many times that part has room in the whole; a part of nothing has none.
fn times(whole: u64, part: u64) -> u64
    ensures { result ≡ times whole part }
{
    whole.checked_div(part).unwrap_or(0)
}

// How many cycles of that length and so many evaluations have room in the ticks and in the evaluations that are left.
pub fn rounds(length: u64, evaluations: u32, room: u64, left: u32) -> u32
    ensures { Rounds length evaluations room left result }
{
    let each = u64::from(evaluations);
    let budget = u64::from(left);
    times(room, length).min(times(budget, each)) as u32
}
