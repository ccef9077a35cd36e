// Ticks and jobs: two sorts of quantity. They are joined where an arrival is worked out, where jobs take their time, and where
// the last job by t is asked for.

ghost use Rattle.answers.specs.Near.{Near};

// A time, or a length of time, from the critical instant on. Ticks are compared by their numbers: by a derived order an evaluation took longer
// (docs/DESIGN-PASS.md).
#[derive(Clone, Copy)]
pub(crate) struct Ticks(pub(crate) u64);

// A count of jobs.
#[derive(Clone, Copy)]
pub(crate) struct Jobs(pub(crate) u64);

// The number of a job of the task under analysis; 0 or below for those held back to the instant.
#[derive(Clone, Copy)]
pub(crate) struct JobNumber {
    pub(crate) number: i64,
    ghost near: { Near number },
}

// A tick that may lie before the critical instant.
#[derive(Clone, Copy)]
pub(crate) struct Moment(pub(crate) i64);
