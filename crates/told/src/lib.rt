// What a caller is told: the cells of each task, what became of the cells that were lent, and the C host's number. Each code
// is named here, and the cells of a task are counted here; how an answer is found is not known here.
#![tactic(auto)]

ghost use Rattle.std.specs.Prelude.{◌≡◌, ◌+◌, ◌%◌, ◌^◌, ◌<◌, false, length, IfSome, IsNone};
ghost use Rattle.analysis.specs.Answer.{cells, unbounded};
ghost use Rattle.told.specs.Cells.{has_room, listed, cells_in, stored, are_kept};
ghost use Rattle.told.specs.Code.{code_number, CodeOf};
ghost use Rattle.told.specs.Answered.{meant, cells_meant};
ghost use Rattle.told.specs.Told.{filled_case, paired};

use refusals::{Case, Numbered};

// What became of the cells that a caller lent: so many tasks have theirs. Where that is refused, every cell stays as it was.
#[derive(Clone, Copy, PartialEq, Eq)]
pub struct Filled {
    pub tasks: usize,
}

impl Case for Filled {
    ghost case_of = { filled_case };

    fn case(&self) -> usize {
        0
    }
}

// What is said of a task, in the order of document 01's codes.
#[derive(Clone, Copy, Debug, PartialEq, Eq)]
pub enum Code {
    Kept,
    Late,
    Overload,
    Beyond,
    Spent,
}

// A number that is no code.
#[derive(Clone, Copy, Debug, PartialEq, Eq)]
pub struct UnknownCode(pub u32);

impl From<Code> for u32 {
    ghost from_gives = { λ code r. r ≡ code_number code };

    fn from(code: Code) -> u32 {
        match code {
            Code::Kept => TaskCells::KEPT,
            Code::Late => TaskCells::LATE,
            Code::Overload => TaskCells::OVERLOAD,
            Code::Beyond => TaskCells::BEYOND,
            Code::Spent => TaskCells::SPENT,
        }
    }
}

impl TryFrom<u32> for Code {
    type Error = UnknownCode;

    ghost try_from_gives = { CodeOf };

    fn try_from(number: u32) -> Result<Code, UnknownCode> {
        match number {
            TaskCells::KEPT => Ok(Code::Kept),
            TaskCells::LATE => Ok(Code::Late),
            TaskCells::OVERLOAD => Ok(Code::Overload),
            TaskCells::BEYOND => Ok(Code::Beyond),
            TaskCells::SPENT => Ok(Code::Spent),
            _ => Err(UnknownCode(number)),
        }
    }
}

// Who gave a bound: the mode, the candidate's number in the whole table, and the job, counted from the candidate's first.
#[derive(Clone, Copy)]
pub struct Named {
    pub mode: u32,
    pub candidate: u32,
    pub job: u32,
}

// What is found of one task: document 01's four answers, none of which is an error, so an enum of its own and no `Result`.
#[derive(Clone, Copy)]
pub enum TaskAnswer {
    // The bound, the evaluations, and who gave it.
    Bound(u32, u32, Named),
    Overload,
    // The evaluations.
    Beyond(u32),
    Spent(u32),
}

impl TaskAnswer {
    // The cells of a task with this deadline.
    pub fn cells(self, deadline: u32) -> TaskCells
        ensures { cells_meant result ≡ cells deadline (meant self) }
    {
        match self {
            TaskAnswer::Bound(bound, evaluations, by) => {
                let code = if bound <= deadline {
                    Code::Kept
                } else {
                    Code::Late
                };
                TaskCells {
                    code: u32::from(code),
                    bound,
                    evaluations,
                    mode: by.mode,
                    candidate: by.candidate,
                    job: by.job,
                }
            }
            TaskAnswer::Overload => TaskCells::unbounded(Code::Overload, 0),
            TaskAnswer::Beyond(evaluations) => TaskCells::unbounded(Code::Beyond, evaluations),
            TaskAnswer::Spent(evaluations) => TaskCells::unbounded(Code::Spent, evaluations),
        }
    }
}

// What a caller gets of one task: document 01's code, the bound or 0, the evaluations, and who gave the bound.
// The code is a number, since the cells are the C interface's, whatever they hold: a `Code` would ask more of `put`.
#[derive(Clone, Copy)]
pub struct TaskCells {
    pub code: u32,
    pub bound: u32,
    pub evaluations: u32,
    pub mode: u32,
    pub candidate: u32,
    pub job: u32,
}

impl TaskCells {
    // How many, and where each stands, counted from the task's first cell.
    pub const COUNT: usize = 6;

    pub const CODE_CELL: usize = 0;

    pub const BOUND_CELL: usize = 1;

    pub const EVALUATIONS_CELL: usize = 2;

    pub const MODE_CELL: usize = 3;

    pub const CANDIDATE_CELL: usize = 4;

    pub const JOB_CELL: usize = 5;

    pub const KEPT: u32 = 0;

    pub const LATE: u32 = 20;

    pub const OVERLOAD: u32 = 21;

    pub const BEYOND: u32 = 22;

    pub const SPENT: u32 = 23;

    // The bound cell, and the three that say who gave it, for 21 to 23.
    pub const NO_BOUND: u32 = 0;

    // The cells of a task without a bound.
    fn unbounded(code: Code, evaluations: u32) -> TaskCells
        ensures { cells_meant result ≡ unbounded (code_number code) evaluations }
    {
        TaskCells {
            code: u32::from(code),
            bound: TaskCells::NO_BOUND,
            evaluations,
            mode: TaskCells::NO_BOUND,
            candidate: TaskCells::NO_BOUND,
            job: TaskCells::NO_BOUND,
        }
    }

    // Each in its place.
    #[tactic(auto, unfolding(crate::specs::Cells::listed))]
    fn listed(self) -> [u32; TaskCells::COUNT]
        ensures { result ≡ listed (cells_meant self) }
    {
        [
            self.code,
            self.bound,
            self.evaluations,
            self.mode,
            self.candidate,
            self.job,
        ]
    }

    // Whether so many cells are enough for so many tasks.
    #[tactic(auto, using(std::proofs::lemmas::Bool::Decides::nat_tests))]
    pub fn have_room(cells: usize, tasks: usize) -> bool
        ensures { result ≡ has_room cells tasks }
    {
        tasks <= cells / TaskCells::COUNT
    }

    // Writes them as those of task number k; where the cells that were lent have no room for them, writes nothing.
    pub fn put(self, cells: &mut [u32], k: usize)
        ensures { cells.new ≡ stored cells.old k (cells_meant self) }
    {
        if k < cells.len() / TaskCells::COUNT {
            let at = TaskCells::COUNT * k;
            cells[at..at + TaskCells::COUNT].copy_from_slice(&self.listed());
        }
    }

    // Those of task number k, where it has its cells there.
    #[tactic(auto, unfolding(crate::specs::Cells::cells_in, crate::specs::Cells::listed))]
    pub fn of(cells: &[u32], k: usize) -> Option<TaskCells>
        ensures some { IfSome result (λ own. cells_in cells.now k ≡ listed (cells_meant own)) }
        ensures none { IsNone result → has_room (length cells.now) (k + 1) ≡ false }
    {
        if cells.len() / TaskCells::COUNT <= k {
            return None;
        }
        let own = &cells[TaskCells::COUNT * k..];
        Some(TaskCells {
            code: own[TaskCells::CODE_CELL],
            bound: own[TaskCells::BOUND_CELL],
            evaluations: own[TaskCells::EVALUATIONS_CELL],
            mode: own[TaskCells::MODE_CELL],
            candidate: own[TaskCells::CANDIDATE_CELL],
            job: own[TaskCells::JOB_CELL],
        })
    }

    // Whether each of so many tasks has its cells there, and in them the code that says that it keeps its deadline.
    pub fn all_kept(cells: &[u32], tasks: usize) -> bool
        ensures { result ≡ are_kept cells.now tasks }
    {
        for k in 0..tasks {
            if cells.len() / TaskCells::COUNT <= k {
                return false;
            }
            let code = cells[TaskCells::COUNT * k + TaskCells::CODE_CELL];
            if code != TaskCells::KEPT {
                return false;
            }
        }
        true
    }
}

// Code and bound, or number and place, in one number.
#[tactic(auto, unfolding(crate::specs::Told::paired))]
pub fn pair(upper: u32, lower: u32) -> u64
    ensures { result ≡ paired upper lower }
{
    u64::from(upper) * 4_294_967_296 + u64::from(lower)
}

// Whatever may be refused, in one number: its number and its place, or the case of what is not refused. A host in C gets 32 bits of a place,
// which those of images and of lent cells fit.
pub fn tell<A: Numbered>(answer: &A) -> u64
    ensures { result ≡ paired (A.numbered answer.now) (A.placed answer.now % 2 ^ 32) }
{
    pair(answer.number(), (answer.place() % 4_294_967_296) as u32)
}
