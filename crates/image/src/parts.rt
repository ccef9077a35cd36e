// The parts of an image by the bit position where each starts: a transaction, with what stands before its tasks, and a task.
ghost use Rattle.std.specs.Prelude.{◌≡◌, ◌<◌, ◌^◌};
ghost use Rattle.table.specs.Sum.{greatest};
ghost use Rattle.format.specs.Places.{task_at, time_at};
ghost use Rattle.format.specs.Said.{time_in};
ghost use Rattle.image.specs.Head.{head_at, body_at};

use row::{Task, Transaction};

// A transaction of an image: where it starts, and its head, which is read once.
#[derive(Clone, Copy)]
pub(crate) struct TransactionAt<'a> {
    pub(crate) image: &'a [u8],
    pub(crate) at: usize,
    pub head: Transaction,
    ghost at_bound: { at < 2 ^ 30 },
    ghost head_value: { head ≡ head_at image.now at },
    ghost modes_bound: { head.modes < 16 },
    ghost tasks_bound: { head.tasks < 32 },
}

impl<'a> TransactionAt<'a> {
    // In line: the scan and the fill are as quick as if each read the fields itself.
    #[inline(always)]
    pub(crate) fn new(image: &'a [u8], at: usize) -> TransactionAt<'a>
        requires { at < 2 ^ 30 }
        ensures image_value { result.image ≡ image.entry }
        ensures at_value { result.at ≡ at }
    {
        let modes = bits::value(image, at + Transaction::MODES_AT, Transaction::MODES_WIDTH);
        let tasks = bits::value(image, at + Transaction::TASKS_AT, Transaction::TASKS_WIDTH);
        let period = bits::value(image, at, Transaction::PERIOD_WIDTH);
        let head = Transaction::new(period, modes as usize, tasks as usize);
        TransactionAt { image, at, head }
    }

    // Its task number j, or where one more would stand.
    pub(crate) fn task(self, j: usize) -> TaskAt<'a>
        requires { j < 32 }
        ensures image_value { result.image ≡ self.entry.image }
        ensures at_value { result.at ≡ task_at self.entry.at self.entry.head.modes j }
        ensures modes_value { result.modes ≡ self.entry.head.modes }
    {
        let modes = self.head.modes;
        let at = self.at + Transaction::WIDTH + j * (Task::TIMES_AT + modes * Task::TIME_WIDTH);
        TaskAt {
            image: self.image,
            at,
            modes,
        }
    }

    // Where it ends.
    pub(crate) fn end(self) -> usize
        ensures { result ≡ task_at self.entry.at self.entry.head.modes self.entry.head.tasks }
    {
        self.task(self.head.tasks).at
    }
}

// A task of an image: where it starts, and how many modes it has.
#[derive(Clone, Copy)]
pub(crate) struct TaskAt<'a> {
    pub(crate) image: &'a [u8],
    pub(crate) at: usize,
    pub modes: usize,
    ghost at_bound: { at < 2 ^ 32 },
    ghost modes_bound: { modes < 16 },
}

impl TaskAt<'_> {
    // What stands before its times.
    pub(crate) fn body(self) -> Task
        ensures { result ≡ body_at self.entry.image.now self.entry.at }
    {
        Task::new(
            bits::value(self.image, self.at, Task::OFFSET_WIDTH),
            bits::value(self.image, self.at + Task::JITTER_AT, Task::JITTER_WIDTH),
            bits::value(
                self.image,
                self.at + Task::BLOCKING_AT,
                Task::BLOCKING_WIDTH,
            ),
            bits::value(
                self.image,
                self.at + Task::DEADLINE_AT,
                Task::DEADLINE_WIDTH,
            ),
            bits::value(
                self.image,
                self.at + Task::PRIORITY_AT,
                Task::PRIORITY_WIDTH,
            ),
        )
    }

    // Where its time in a mode stands.
    pub(crate) fn time_at(self, m: usize) -> usize
        requires { m < 16 }
        ensures { result ≡ time_at self.entry.at m }
    {
        self.at + Task::TIMES_AT + m * Task::TIME_WIDTH
    }

    pub(crate) fn time(self, m: usize) -> u32
        requires { m < 16 }
        ensures { result ≡ time_in self.entry.image.now self.entry.at m }
    {
        bits::value(self.image, self.time_at(m), Task::TIME_WIDTH)
    }

    pub(crate) fn greatest_time(self) -> u32
        ensures { result ≡ greatest self.entry.modes (time_in self.entry.image.now self.entry.at) }
    {
        let mut most: u32 = 0;
        for m in 0..self.modes {
            most = most.max(self.time(m));
        }
        most
    }
}
