// Interference: what the rivals of the task under analysis charge by t. `whole` charges jobs whole at their release;
// otherwise they charge what they impose. Phases, weights and their sums are read from the work cells, and t is
// split by the period once for each transaction. What lies below `rivals` may become faster; its contract stays.
ghost use Rattle.std.specs.Prelude.{◌≡◌, ◌+◌, ◌*◌, ◌<◌, ◌≤◌, ◌^◌, max};
ghost use Rattle.row.specs.Row.{table_of, RowOfTable};
ghost use Rattle.table.specs.Limits.{horizon, tasks_most, tasks_in_all};
ghost use Rattle.table.specs.Number.{number};
ghost use Rattle.table.specs.Table.{IsTask, transactions, modes};
ghost use Rattle.analysis.specs.Charge.{phase_of, held_of, charge, greatest, rivals};
ghost use Rattle.charge.specs.Later.{later_of};
ghost use Rattle.charge.specs.Split.{whole_periods, rest_of, rests, charge_cap};
ghost use Rattle.answers.specs.Analysed.{Charging};
ghost use Rattle.answers.specs.Split.{moment, InWork, IsSplitAt, IsSetting};
ghost use Rattle.answers.specs.Work.{Lent, IsSubject};
ghost use Rattle.charge.specs.Weight.{weight, mode_weight, held_back};

use super::layout::Work;
use super::lent::{Linked, Weighed};
use super::quantity::{Jobs, Ticks};
use super::reads;
use row::{Table, Transaction};
use std::marker::Model;

// The task under analysis: task a of transaction u, with its priority.
#[derive(Clone, Copy)]
pub(crate) struct Subject {
    pub(crate) u: usize,
    pub(crate) a: usize,
    pub(crate) priority: u32,
}

// Where task j of transaction i stands among the phases and the held-back jobs, when candidate c sets the instant.
#[tactic(auto, using(crate::proofs::Rooms::rooms))]
fn place(work: &[u32; Work::CELLS], i: usize, c: usize, j: usize) -> usize
    requires row_of_table { RowOfTable work.now }
    requires task { IsTask (table_of work.now) i c }
    requires task_2 { IsTask (table_of work.now) i j }
    ensures place { result ≡ tasks_most * number (table_of work.now) i c + j }
    ensures within { result < tasks_in_all * tasks_most }
{
    Transaction::TASKS * reads::number(work, i, c) + j
}

// Phase of task j when candidate c sets the critical instant.
pub(crate) fn phase_of(work: &[u32; Work::CELLS], i: usize, c: usize, j: usize) -> Ticks
    requires lent { Lent work.now }
    requires task { IsTask (table_of work.now) i c }
    requires task_2 { IsTask (table_of work.now) i j }
    ensures { result.0 ≡ phase_of (table_of work.now) i c j }
{
    Ticks(u64::from(work[Work::PHASES + place(work, i, c, j)]))
}

// Jobs of task j held back to the instant.
pub(crate) fn held_of(work: &[u32; Work::CELLS], i: usize, c: usize, j: usize) -> Jobs
    requires lent { Lent work.now }
    requires task { IsTask (table_of work.now) i c }
    requires task_2 { IsTask (table_of work.now) i j }
    ensures { result.0 ≡ held_of (table_of work.now) i c j }
{
    Jobs(u64::from(work[Work::HELD + place(work, i, c, j)]))
}

// A transaction at one t: t split by its period, the number of its first task, and how many tasks it has.
#[derive(Clone, Copy)]
pub(crate) struct Split {
    pub(crate) first: usize,
    pub(crate) count: usize,
    pub(crate) period: u32,
    pub(crate) rest: u32,
    pub(crate) periods: u64,
}

pub(crate) fn split_of(work: &[u32; Work::CELLS], i: usize, t: Ticks) -> Split
    requires row_of_table { RowOfTable work.now }
    requires i_bound { i < transactions (table_of work.now) }
    requires t_bound { t.0 < 2 ^ 32 }
    ensures { IsSplitAt (table_of work.now) i t.0 result }
{
    let cell = Table::HEADER_CELLS + i * Transaction::CELLS;
    let period = work[cell + Transaction::PERIOD_CELL];
    let at = t.0 as u32;
    Split {
        first: work[cell + Transaction::FIRST_CELL] as usize,
        count: work[cell + Transaction::TASKS_CELL] as usize,
        period,
        rest: at % period,
        periods: u64::from(at / period),
    }
}

impl Split {
    // What a task of that phase and weight charges beside the whole periods.
    pub(crate) fn rest_of(self, whole: bool, phase: u32, weight: u32) -> u32
        requires period_bound { self.period < 2 ^ 24 }
        requires rest_lt_period { self.rest < self.period }
        requires phase_lt_period { phase < self.period }
        requires weight_bound { weight < 2 ^ 24 }
        ensures { result ≡ rest_of whole self.periods self.period self.rest phase weight }
    {
        if whole {
            return if phase < self.rest { weight } else { 0 };
        }
        if self.periods == 0 {
            return self.rest.saturating_sub(phase).min(weight);
        }
        if phase <= self.rest {
            return weight + (self.rest - phase).min(weight);
        }
        (self.rest + self.period - phase).min(weight)
    }

    // The periods that are charged whole: of what jobs impose the last is part of the rest.
    pub(crate) fn whole_periods(self, whole: bool) -> u64
        ensures { result ≡ whole_periods whole self.periods }
    {
        if whole {
            return self.periods;
        }
        self.periods.saturating_sub(1)
    }
}

// Candidate c of transaction i in mode m, at a t that x splits, by the subject's work cells.
#[derive(Drop)]
pub(crate) struct Setting<'a> {
    pub(crate) work: &'a [u32; Work::CELLS],
    pub(crate) s: Subject,
    pub(crate) i: usize,
    pub(crate) m: usize,
    pub(crate) c: usize,
    pub(crate) x: Split,
}

impl<'a> Model for Setting<'a> {
    ghost Value = { Charging };

    ghost view = { λ y. record { tab = table_of y.work.now; u = y.s.u; a = y.s.a; i = y.i; m = y.m; c = y.c; x = y.x } };

    ghost invariant = { λ y. IsSetting y.work.now y.s y.i y.m y.c y.x × InWork y.x y.m y.c };
}

impl Setting<'_> {
    // What all its tasks charge beside the whole periods.
    fn rests(&self, whole: bool) -> u32
        ensures { result ≡ rests whole self.now.tab self.now.u self.now.a self.now.i self.now.m self.now.c self.now.x.periods self.now.x.rest }
    {
        let phases = Work::PHASES + Transaction::TASKS * (self.x.first + self.c);
        let weights = Work::WEIGHTS + Table::TASKS * self.m + self.x.first;
        let mut sum = 0;
        for j in 0..self.x.count {
            sum += self
                .x
                .rest_of(whole, self.work[phases + j], self.work[weights + j]);
        }
        sum
    }

    // The same for at most three tasks, without a loop: a copy for speed. With the loop for both an analysis took 1.14 to 1.28 times the
    // instructions on such transactions, since which charge it is was then asked for each setting and not once for a transaction.
    fn few_rests(&self, whole: bool) -> u32
        requires { self.now.x.count < 4 }
        ensures { result ≡ rests whole self.now.tab self.now.u self.now.a self.now.i self.now.m self.now.c self.now.x.periods self.now.x.rest }
    {
        let phases = Work::PHASES + Transaction::TASKS * (self.x.first + self.c);
        let weights = Work::WEIGHTS + Table::TASKS * self.m + self.x.first;
        let one = self.x.rest_of(whole, self.work[phases], self.work[weights]);
        if self.x.count == 1 {
            return one;
        }
        let two = one
            + self
                .x
                .rest_of(whole, self.work[phases + 1], self.work[weights + 1]);
        if self.x.count == 2 {
            return two;
        }
        two + self
            .x
            .rest_of(whole, self.work[phases + 2], self.work[weights + 2])
    }

    // What the jobs held back to candidate c's instant weigh.
    fn held_back(&self) -> u64
        ensures { result ≡ held_back self.now.tab self.now.u self.now.a self.now.i self.now.m self.now.c }
    {
        let at = Work::SUMS + 2 * (Transaction::MODES * (self.x.first + self.c) + self.m);
        u64::from(self.work[at]) + u64::from(self.work[at + 1]) * Work::HALF
    }

    // The weights of its transaction in its mode together.
    fn mode_weight(&self) -> u64
        ensures { result ≡ mode_weight self.now.tab self.now.u self.now.a self.now.i self.now.m }
    {
        let cells = Weighed {
            work: self.work,
            s: self.s,
        };
        cells.mode_weight(self.i, self.m)
    }

    // A transaction's charge, where what its tasks charge beside the whole periods is given.
    fn charge_with(&self, whole: bool, rest: u32) -> Ticks
        requires { rest ≡ rests whole self.now.tab self.now.u self.now.a self.now.i self.now.m self.now.c self.now.x.periods self.now.x.rest }
        ensures { result.0 ≡ charge (later_of whole) self.now.tab self.now.u self.now.a self.now.i self.now.m self.now.c (moment self.now.x) }
    {
        let passed = self.x.whole_periods(whole) * self.mode_weight();
        let rest = u64::from(rest);
        Ticks(self.held_back() + passed + rest)
    }

    // A transaction's charge for (c, mode) sums its rivals.
    pub(crate) fn charge(&self, whole: bool) -> Ticks
        ensures { result.0 ≡ charge (later_of whole) self.now.tab self.now.u self.now.a self.now.i self.now.m self.now.c (moment self.now.x) }
    {
        self.charge_with(whole, self.rests(whole))
    }

    // The most that a transaction can charge for (c, mode): a period more than the whole ones.
    fn charge_cap(&self) -> u64
        ensures { result ≡ charge_cap self.now.tab self.now.u self.now.a self.now.i self.now.m self.now.c self.now.x.periods }
    {
        self.held_back() + (self.x.periods + 1) * self.mode_weight()
    }

    // The greater of `best` and what the setting charges. What cannot be greater is passed over, except where there is so little
    // to add up that the test costs more.
    fn charge_from(&self, whole: bool, best: u64) -> u64
        ensures { result ≡ max best (charge (later_of whole) self.now.tab self.now.u self.now.a self.now.i self.now.m self.now.c (moment self.now.x)) }
    {
        if self.x.count < 4 {
            return best.max(self.charge_with(whole, self.few_rests(whole)).0);
        }
        if self.charge_cap() <= best {
            return best;
        }
        best.max(self.charge(whole).0)
    }
}

impl Linked<'_> {
    // The greatest charge of another transaction, over its modes and candidates: over the settings that are charged. The
    // settings are a list in fixed cells, so the number of the next is read there, and no `for` counts it.
    #[tactic(auto, using(crate::proofs::Rooms::rooms))]
    fn greatest(&self, whole: bool, i: usize, t: Ticks) -> Ticks
        requires i_bound { i < transactions self.now.tab }
        requires t_le_horizon { t.0 ≤ horizon }
        ensures { result.0 ≡ greatest (later_of whole) self.now.tab self.now.u self.now.a i t.0 }
    {
        let x = split_of(self.work, i, t);
        let end = Transaction::MODES * (x.first + x.count);
        let mut best = 0;
        let mut z = self.work[Work::SETTINGS + Transaction::MODES * x.first] as usize;
        while z < end {
            let setting = Setting {
                work: self.work,
                s: self.s,
                i,
                m: z % Transaction::MODES,
                c: z / Transaction::MODES - x.first,
                x,
            };
            best = setting.charge_from(whole, best);
            z = self.work[Work::SETTINGS + (z + 1)] as usize;
        }
        Ticks(best)
    }

    // The rivals' charges: in u for the given mode and candidate, elsewhere the greatest. The other transactions are a list in
    // fixed cells, too.
    pub(crate) fn rivals(&self, whole: bool, m: usize, c: usize, t: Ticks) -> Ticks
        requires task { IsTask self.now.tab self.now.u c }
        requires m_bound { m < modes self.now.tab self.now.u }
        requires t_le_horizon { t.0 ≤ horizon }
        ensures { result.0 ≡ rivals (later_of whole) self.now.tab self.now.u self.now.a m c t.0 }
    {
        let count = reads::transactions(self.work);
        let mut sum = 0;
        let mut i = self.work[Work::OTHERS] as usize;
        while i < count {
            sum += self.greatest(whole, i, t).0;
            i = self.work[Work::OTHERS + (i + 1)] as usize;
        }
        let own = Setting {
            work: self.work,
            s: self.s,
            i: self.s.u,
            m,
            c,
            x: split_of(self.work, self.s.u, t),
        };
        Ticks(own.charge(whole).0 + sum)
    }
}
