// The walk of one task: its modes, in each its candidates, and for each the L chain and then the jobs, lowest first. The
// state goes in by value and comes back, with the count of evaluations and the greatest response so far.
ghost use Rattle.std.specs.Prelude.{◌≡◌, ◌-◌, ◌<◌, ◌≤◌};
ghost use Rattle.table.specs.Table.{modes, tasks};
ghost use Rattle.periods.specs.Charge.{imposed};
ghost use Rattle.analysis.specs.Rival.{Runs, candidate?};
ghost use Rattle.analysis.specs.Bound.{Setting};
ghost use Rattle.analysis.specs.Order.{walk_order};
ghost use Rattle.analysis.specs.Walk.{nothing, better, walk_jobs, walk_turn, walk_turns};
ghost use Rattle.answers.specs.Lent.{tested};
ghost use Rattle.answers.specs.Turn.{IsInstant, Lasts, best_meant, walked, turns_from, mode_turns};

use super::chains::Stopped;
use super::instant::Instant;
use super::lent::{Linked, Weighed};
use super::quantity::{Jobs, Ticks};
use super::reads;

// A job of the walk: mode, candidate, and the job counted from the candidate's first.
#[derive(Clone, Copy)]
pub(crate) struct Source {
    pub(crate) mode: usize,
    pub(crate) candidate: usize,
    pub(crate) job: Jobs,
}

// A response, and the job that has it.
#[derive(Clone, Copy)]
pub(crate) struct Best {
    pub(crate) response: Ticks,
    pub(crate) source: Source,
}

// The evaluations made so far, and the greatest response so far.
#[derive(Clone, Copy)]
pub(crate) struct Walk {
    pub(crate) used: u32,
    pub(crate) best: Best,
}

// The later one only if its response is greater.
fn better(x: Best, y: Best) -> Best
    ensures { best_meant result ≡ better (best_meant x) (best_meant y) }
{
    if x.response.0 < y.response.0 { y } else { x }
}

impl Linked<'_> {
    // Whether task c is a candidate of the subject in mode m.
    fn is_candidate(&self, m: usize, c: usize) -> bool
        requires m_bound { m < modes self.now.tab self.now.u }
        requires c_bound { c < tasks self.now.tab self.now.u }
        ensures { result ≡ tested (candidate? self.now.tab self.now.u self.now.a m c) }
    {
        let cells = Weighed {
            work: self.work,
            s: self.s,
        };
        c == self.s.a || cells.weight(self.s.u, m, c) != 0
    }
}

impl Walk {
    pub(crate) fn new() -> Walk
        ensures { (result.used ≡ 0) × (best_meant result.best ≡ nothing) }
    {
        Walk {
            used: 0,
            best: Best {
                response: Ticks(0),
                source: Source {
                    mode: 0,
                    candidate: 0,
                    job: Jobs(0),
                },
            },
        }
    }

    // One job: its chain, and its response.
    fn job(
        self,
        cells: &Linked<'_>,
        x: Instant,
        n: Jobs,
        jobs: Jobs,
        budget: u32,
    ) -> Result<Walk, Stopped>
        requires instant { IsInstant cells.now.tab cells.now.u cells.now.a x.mode x.candidate x }
        requires lasts { Lasts cells.now.tab cells.now.u cells.now.a x.mode x.candidate jobs.0 }
        requires n_lt_jobs { n.0 < jobs.0 }
        requires used_le_budget { self.used ≤ budget }
        ensures { result ≡ walked budget (walk_jobs imposed cells.now.tab cells.now.u cells.now.a x.mode x.candidate 1 n.0 (budget - self.used) (best_meant self.best)) }
    {
        let p = x.job(n);
        let came = cells.job_chain(x, p, budget, self.used)?;
        let met = Best {
            response: x.response(p, came.t),
            source: Source {
                mode: x.mode,
                candidate: x.candidate,
                job: n,
            },
        };
        Ok(Walk {
            used: came.used,
            best: better(self.best, met),
        })
    }

    // The jobs of one turn, lowest first.
    fn jobs(self, cells: &Linked<'_>, x: Instant, jobs: Jobs, budget: u32) -> Result<Walk, Stopped>
        requires instant { IsInstant cells.now.tab cells.now.u cells.now.a x.mode x.candidate x }
        requires lasts { Lasts cells.now.tab cells.now.u cells.now.a x.mode x.candidate jobs.0 }
        requires used_le_budget { self.used ≤ budget }
        ensures { result ≡ walked budget (walk_jobs imposed cells.now.tab cells.now.u cells.now.a x.mode x.candidate jobs.0 0 (budget - self.used) (best_meant self.best)) }
    {
        let mut state = self;
        for n in 0..jobs.0 {
            state = state.job(cells, x, Jobs(n), jobs, budget)?;
        }
        Ok(state)
    }

    // One turn: the L chain, then the jobs.
    fn turn(self, cells: &Linked<'_>, m: usize, c: usize, budget: u32) -> Result<Walk, Stopped>
        requires setting { Setting cells.now.tab cells.now.u cells.now.a m c }
        requires used_le_budget { self.used ≤ budget }
        ensures { result ≡ walked budget (walk_turn imposed cells.now.tab cells.now.u cells.now.a (record { mode = m; candidate = c }) (budget - self.used) (best_meant self.best)) }
    {
        let x = Instant::of(cells, m, c);
        let came = cells.busy_chain(x, budget, self.used)?;
        let jobs = x.jobs_to(x.last_job(came.t));
        let state = Walk {
            used: came.used,
            best: self.best,
        };
        state.jobs(cells, x, jobs, budget)
    }

    // The turn of c, if it is a candidate.
    fn candidate(self, cells: &Linked<'_>, m: usize, c: usize, budget: u32) -> Result<Walk, Stopped>
        requires m_bound { m < modes cells.now.tab cells.now.u }
        requires runs { Runs cells.now.tab cells.now.u m cells.now.a }
        requires c_bound { c < tasks cells.now.tab cells.now.u }
        requires used_le_budget { self.used ≤ budget }
        ensures { result ≡ walked budget (walk_turns imposed cells.now.tab cells.now.u cells.now.a (turns_from cells.now.tab cells.now.u cells.now.a m c 1) (budget - self.used) (best_meant self.best)) }
    {
        if cells.is_candidate(m, c) {
            self.turn(cells, m, c, budget)
        } else {
            Ok(self)
        }
    }

    // The candidates of one mode, in image order.
    fn mode(self, cells: &Linked<'_>, m: usize, budget: u32) -> Result<Walk, Stopped>
        requires m_bound { m < modes cells.now.tab cells.now.u }
        requires used_le_budget { self.used ≤ budget }
        ensures { result ≡ walked budget (walk_turns imposed cells.now.tab cells.now.u cells.now.a (mode_turns cells.now.tab cells.now.u cells.now.a m) (budget - self.used) (best_meant self.best)) }
    {
        if reads::time(cells.work, cells.s.u, m, cells.s.a) == 0 {
            return Ok(self);
        }
        let count = reads::tasks(cells.work, cells.s.u);
        let mut state = self;
        for c in 0..count {
            state = state.candidate(cells, m, c, budget)?;
        }
        Ok(state)
    }

    // The whole walk: the modes in ascending order.
    pub(crate) fn modes(self, cells: &Linked<'_>, budget: u32) -> Result<Walk, Stopped>
        requires used_le_budget { self.used ≤ budget }
        ensures { result ≡ walked budget (walk_turns imposed cells.now.tab cells.now.u cells.now.a (walk_order cells.now.tab cells.now.u cells.now.a) (budget - self.used) (best_meant self.best)) }
    {
        let count = reads::modes(cells.work, cells.s.u);
        let mut state = self;
        for m in 0..count {
            state = state.mode(cells, m, budget)?;
        }
        Ok(state)
    }
}
