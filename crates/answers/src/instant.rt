// A turn's critical instant: what a mode and a candidate fix of the subject, and what follows of it for its jobs, by their numbers.
ghost use Rattle.std.specs.Prelude.{◌≡◌, T, pos, ◌+ℤ◌, ◌-ℤ◌, ◌*ℤ◌, ◌+◌, ◌*◌, ◌<◌, ◌≤◌, ◌^◌};
ghost use Rattle.std.specs.Int.Signed.{mag, non_neg};
ghost use Rattle.table.specs.Limits.{horizon};
ghost use Rattle.periods.specs.Phase.{ceiling};
ghost use Rattle.analysis.specs.Choice.{count};
ghost use Rattle.answers.specs.Near.{Near};

use super::lent::Linked;
use super::quantity::{JobNumber, Jobs, Moment, Ticks};
use super::{charges, reads};

// One turn of the walk: a mode and a candidate, with what of the subject they fix.
#[derive(Clone, Copy)]
pub(crate) struct Instant {
    pub(crate) mode: usize,
    pub(crate) candidate: usize,
    pub(crate) period: Ticks,
    pub(crate) offset: Ticks,
    pub(crate) blocking: Ticks,
    pub(crate) time: Ticks,
    pub(crate) phase: Ticks,
    pub(crate) first: JobNumber,
    ghost period_bound: { period.0 < 2 ^ 24 },
    ghost offset_bound: { offset.0 < 2 ^ 24 },
    ghost blocking_bound: { blocking.0 < 2 ^ 24 },
    ghost time_bound: { time.0 < 2 ^ 24 },
    ghost phase_lt_period: { phase.0 < period.0 },
}

// The first job number, 1 − the number of jobs held back.
fn first_job(held: Jobs) -> JobNumber
    requires { held.0 < 2 ^ 26 }
    ensures { result.number ≡ pos 1 -ℤ pos held.0 }
{
    JobNumber {
        number: 1 - held.0 as i64,
    }
}

impl Instant {
    ghost use Rattle.analysis.specs.Bound.{Setting};
    ghost use Rattle.answers.specs.Turn.{IsInstant};

    // The turn of candidate c in mode m.
    pub(crate) fn of(cells: &Linked<'_>, m: usize, c: usize) -> Instant
        requires { Setting cells.now.tab cells.now.u cells.now.a m c }
        ensures { IsInstant cells.now.tab cells.now.u cells.now.a m c result }
    {
        let work = cells.work;
        let s = cells.s;
        Instant {
            mode: m,
            candidate: c,
            period: Ticks(reads::period(work, s.u)),
            offset: Ticks(reads::offset(work, s.u, s.a)),
            blocking: Ticks(reads::blocking(work, s.u, s.a)),
            time: Ticks(reads::time(work, s.u, m, s.a)),
            phase: charges::phase_of(work, s.u, c, s.a),
            first: first_job(charges::held_of(work, s.u, c, s.a)),
        }
    }

    // The N-th job counted from the first.
    pub(crate) fn job(self, n: Jobs) -> JobNumber
        requires { Near (self.first.number +ℤ pos n.0) }
        ensures { result.number ≡ self.first.number +ℤ pos n.0 }
    {
        JobNumber {
            number: self.first.number + n.0 as i64,
        }
    }

    // The last job by t, ceil((t − F)/T).
    pub(crate) fn last_job(self, t: Ticks) -> JobNumber
        requires { t.0 ≤ horizon }
        ensures { result.number ≡ ceiling (pos t.0 -ℤ pos self.phase.0) self.period.0 }
    {
        JobNumber {
            number: t.0.saturating_sub(self.phase.0).div_ceil(self.period.0) as i64,
        }
    }

    // The number of jobs from the first to p.
    pub(crate) fn jobs_to(self, p: JobNumber) -> Jobs
        ensures { result.0 ≡ count (p.number -ℤ self.first.number +ℤ pos 1) }
    {
        Jobs((p.number - self.first.number + 1).max(0) as u64)
    }

    // B + (p − p0 + 1)·C
    pub(crate) fn start(self, p: JobNumber) -> Ticks
        ensures { result.0 ≡ self.blocking.0 + count (p.number -ℤ self.first.number +ℤ pos 1) * self.time.0 }
    {
        Ticks(self.blocking.0 + self.jobs_to(p).0 * self.time.0)
    }

    // The arrival of job p, F + (p − 1)·T: here ticks and job numbers are joined.
    pub(crate) fn arrival(self, p: JobNumber) -> Moment
        ensures { result.0 ≡ pos self.phase.0 +ℤ (p.number -ℤ pos 1) *ℤ pos self.period.0 }
    {
        Moment(self.phase.0 as i64 + (p.number - 1) * self.period.0 as i64)
    }

    // The response of job p that completes at w, cut at 0.
    pub(crate) fn response(self, p: JobNumber, w: Ticks) -> Ticks
        requires { w.0 ≤ horizon }
        ensures { result.0 ≡ count (pos w.0 -ℤ (pos self.phase.0 +ℤ (p.number -ℤ pos 1) *ℤ pos self.period.0) +ℤ pos self.offset.0) }
    {
        let since = w.0 as i64 - self.arrival(p).0 + self.offset.0 as i64;
        Ticks(since.max(0) as u64)
    }

    // The completion of a job that arrives there and has that bound, found back from it: the bound is completion − arrival + offset.
    pub(crate) fn completion(self, bound: u32, arrives: Moment) -> Ticks
        requires arrives_bound { mag arrives.0 < 2 ^ 52 }
        requires t { T (non_neg (pos bound -ℤ pos self.offset.0 +ℤ arrives.0)) }
        ensures { result.0 ≡ count (pos bound -ℤ pos self.offset.0 +ℤ arrives.0) }
    {
        Ticks((i64::from(bound) - self.offset.0 as i64 + arrives.0) as u64)
    }
}
