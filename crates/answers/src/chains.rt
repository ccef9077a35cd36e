// The chains of one turn of the walk: the busy length, and the completion of a job. Each evaluation puts the present t
// in; the budget is looked at before it, the horizon after it.
ghost use Rattle.std.specs.Prelude.{◌≡◌, ◌-◌, ◌≤◌};
ghost use Rattle.periods.specs.Charge.{imposed};
ghost use Rattle.analysis.specs.Bound.{demand, busy};
ghost use Rattle.analysis.specs.Needed.{start};
ghost use Rattle.analysis.specs.Walk.{chain, beyond?, never?};
ghost use Rattle.table.specs.Limits.{horizon};
ghost use Rattle.charge.specs.Later.{later_of};
ghost use Rattle.answers.specs.Turn.{IsInstant, Reaches, stopped};

use super::instant::Instant;
use super::lent::Linked;
use super::quantity::{JobNumber, Ticks};
use super::reads;
use row::Table;

// Where a chain came back, and the evaluations made so far.
#[derive(Clone, Copy)]
pub(crate) struct Came {
    pub(crate) t: Ticks,
    pub(crate) used: u32,
}

// Why a chain with a budget, and the walk with it, came to no end: past the horizon after that many evaluations, or short of budget.
#[derive(Clone, Copy)]
pub(crate) enum Stopped {
    Past(u32),
    Short,
}

impl Linked<'_> {
    // The demand of the jobs to p, and of the rivals, at t.
    fn demand(&self, x: Instant, whole: bool, p: JobNumber, t: Ticks) -> Ticks
        requires instant { IsInstant self.now.tab self.now.u self.now.a x.mode x.candidate x }
        requires t_le_horizon { t.0 ≤ horizon }
        ensures { result.0 ≡ demand (later_of whole) self.now.tab self.now.u self.now.a x.mode x.candidate p.number t.0 }
    {
        Ticks(x.start(p).0 + self.rivals(whole, x.mode, x.candidate, t).0)
    }

    // The demand by t of all jobs up to t, charged at their release.
    pub(crate) fn busy(&self, x: Instant, t: Ticks) -> Ticks
        requires instant { IsInstant self.now.tab self.now.u self.now.a x.mode x.candidate x }
        requires t_le_horizon { t.0 ≤ horizon }
        ensures { result.0 ≡ busy self.now.tab self.now.u self.now.a x.mode x.candidate t.0 }
    {
        self.demand(x, true, x.last_job(t), t)
    }

    // The chain for L: it starts at 1, and ends where t comes back or the value exceeds the horizon. Cycles of it that come
    // again are counted and not walked.
    pub(crate) fn busy_chain(&self, x: Instant, budget: u32, used: u32) -> Result<Came, Stopped>
        requires instant { IsInstant self.now.tab self.now.u self.now.a x.mode x.candidate x }
        requires used_le_budget { used ≤ budget }
        ensures { result ≡ stopped budget (chain (busy self.now.tab self.now.u self.now.a x.mode x.candidate) beyond? (budget - used) 1) }
    {
        let horizon = u64::from(Table::horizon());
        let frame = reads::frame(self.work);
        let mut made = used;
        let mut t = Ticks(1);
        let mut mark = Ticks(1);
        // whole cycles are counted at once, so no `for` counts the evaluations
        while made < budget {
            let value = self.busy(x, t);
            made += 1;
            if value.0 == t.0 {
                return Ok(Came { t, used: made });
            }
            if horizon < value.0 {
                return Err(Stopped::Past(made));
            }
            let next = self.go_on(x, frame, mark, value, budget - made);
            made += next.evaluations;
            t = next.t;
            mark = next.mark;
        }
        Err(Stopped::Short)
    }

    // The chain of job p: it starts at B + (p − p0 + 1)·C, and ends where t comes back.
    pub(crate) fn job_chain(
        &self,
        x: Instant,
        p: JobNumber,
        budget: u32,
        used: u32,
    ) -> Result<Came, Stopped>
        requires instant { IsInstant self.now.tab self.now.u self.now.a x.mode x.candidate x }
        requires reaches { Reaches self.now.tab self.now.u self.now.a x.mode x.candidate p.number }
        requires used_le_budget { used ≤ budget }
        ensures { result ≡ stopped budget (chain (demand imposed self.now.tab self.now.u self.now.a x.mode x.candidate p.number) never? (budget - used) (start self.now.tab self.now.u self.now.a x.mode x.candidate p.number)) }
    {
        let mut made = used;
        let mut t = x.start(p);
        // as above, one at a time
        while made < budget {
            let value = self.demand(x, false, p, t);
            made += 1;
            if value.0 == t.0 {
                return Ok(Came { t, used: made });
            }
            t = value;
        }
        Err(Stopped::Short)
    }
}
