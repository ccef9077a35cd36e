// What tasks request by t and demand in a major frame, and the approximation of one task's request.
ghost use Rattle.std.specs.Prelude.{◌≡◌, ◌+◌, ◌*◌, ◌/◌, ◌<◌, ◌≤◌, ◌^◌};
ghost use Rattle.row.specs.Row.{table_of};
ghost use Rattle.table.specs.Table.{transactions, period, jitter, blocking, time};
ghost use Rattle.table.specs.Limits.{horizon};
ghost use Rattle.periods.specs.Phase.{ceil};
ghost use Rattle.jitter.specs.Request.{approximate};
ghost use Rattle.jitter.specs.Start.{rival_load, load};
ghost use Rattle.beside.specs.Lent.{Shows, IsRival};

use super::reads::Alone;

impl Alone<'_> {
    // Its jobs by t, ceil((t + J)/T).
    pub(crate) fn jobs(&self, t: u64) -> u32
        requires { t ≤ horizon }
        ensures { result ≡ ceil (t + jitter (table_of self.now.row.now) self.now.u 0) (period (table_of self.now.row.now) self.now.u) }
    {
        let period = self.period();
        (t as u32 + self.jitter() + (period - 1)) / period
    }

    // The time of so many jobs.
    pub(crate) fn time_of(&self, jobs: u32) -> u64
        ensures { result ≡ jobs * time (table_of self.now.row.now) self.now.u 0 0 }
    {
        u64::from(jobs) * u64::from(self.time())
    }

    // What it demands in one major frame.
    pub(crate) fn demand(&self) -> u64
        ensures { result ≡ (table_of self.now.row.now).frame / period (table_of self.now.row.now) self.now.u * time (table_of self.now.row.now) self.now.u 0 0 }
    {
        self.time_of(self.frame() / self.period())
    }

    // Whether i is another task, of equal or higher priority.
    pub(crate) fn is_rival(&self, i: usize) -> bool
        requires { i < transactions (table_of self.now.row.now) }
        ensures { Shows (IsRival (table_of self.now.row.now) self.now.u i) result }
    {
        let other = Alone {
            row: self.row,
            u: i,
        };
        i != self.u && self.priority() <= other.priority()
    }

    // What task i demands in one major frame, if it is a rival.
    fn rival_load(&self, i: usize) -> u64
        requires { i < transactions (table_of self.now.row.now) }
        ensures { result ≡ rival_load (table_of self.now.row.now) self.now.u i }
    {
        let other = Alone {
            row: self.row,
            u: i,
        };
        if self.is_rival(i) { other.demand() } else { 0 }
    }

    pub(crate) fn load(&self) -> u64
        ensures { result ≡ load (table_of self.now.row.now) self.now.u }
    {
        let mut all: u64 = 0;
        for i in 0..self.transactions() {
            all += self.rival_load(i);
        }
        all
    }

    // B + C
    pub(crate) fn own(&self) -> u64
        ensures { result ≡ blocking (table_of self.now.row.now) self.now.u 0 + time (table_of self.now.row.now) self.now.u 0 0 }
    {
        u64::from(self.blocking()) + u64::from(self.time())
    }

    // The approximation of what it requests by t, exact up to (k − 1)·T − J, in T-ths of a tick.
    pub(crate) fn approximate(&self, k: u32, t: u32) -> u64
        requires le_k { 1 ≤ k }
        requires t_le_horizon { t ≤ horizon }
        ensures { result ≡ approximate k (period (table_of self.now.row.now) self.now.u) (jitter (table_of self.now.row.now) self.now.u 0) (time (table_of self.now.row.now) self.now.u 0 0) t }
    {
        let period = u64::from(self.period());
        let since = u64::from(t) + u64::from(self.jitter());
        if since <= (u64::from(k) - 1) * period {
            return self.time_of(self.jobs(u64::from(t))) * period;
        }
        let time = u64::from(self.time());
        time * period + since * time
    }
}
