// Overload: what the task under analysis and its rivals demand in one major frame.
ghost use Rattle.std.specs.Prelude.{◌≡◌, ◌<◌, ◌*◌, ◌/◌};
ghost use Rattle.table.specs.Table.{IsTask, transactions, period, modes, time};
ghost use Rattle.analysis.specs.Choice.{when};
ghost use Rattle.analysis.specs.Rival.{urgent?};
ghost use Rattle.analysis.specs.Overload.{load, counts?, most_load, frame_demand, overload?};
ghost use Rattle.answers.specs.Lent.{tested};

use super::lent::Linked;
use super::reads;

impl Linked<'_> {
    // The time of task j, if its priority is at least the subject's.
    fn urgent_time(&self, i: usize, m: usize, j: usize) -> u64
        requires task { IsTask self.now.tab i j }
        requires m_bound { m < modes self.now.tab i }
        ensures { result ≡ when (urgent? self.now.tab self.now.u self.now.a i j) (time self.now.tab i m j) }
    {
        if reads::priority(self.work, i, j) < self.s.priority {
            0
        } else {
            reads::time(self.work, i, m, j)
        }
    }

    // The times of a and its rivals in transaction i and mode m.
    fn load(&self, i: usize, m: usize) -> u64
        requires i_bound { i < transactions self.now.tab }
        requires m_bound { m < modes self.now.tab i }
        ensures { result ≡ load self.now.tab self.now.u self.now.a i m }
    {
        let count = reads::tasks(self.work, i);
        let mut sum: u64 = 0;
        for j in 0..count {
            sum += self.urgent_time(i, m, j);
        }
        sum
    }

    // The load of a mode that counts: of the subject's own transaction only modes where it runs.
    fn counted_load(&self, i: usize, m: usize) -> u64
        requires i_bound { i < transactions self.now.tab }
        requires m_bound { m < modes self.now.tab i }
        ensures { result ≡ when (counts? self.now.tab self.now.u self.now.a i m) (load self.now.tab self.now.u self.now.a i m) }
    {
        if i == self.s.u && reads::time(self.work, i, m, self.s.a) == 0 {
            0
        } else {
            self.load(i, m)
        }
    }

    // The greatest load of transaction i over the modes that count.
    fn most_load(&self, i: usize) -> u64
        requires { i < transactions self.now.tab }
        ensures { result ≡ most_load self.now.tab self.now.u self.now.a i }
    {
        let count = reads::modes(self.work, i);
        let mut best: u64 = 0;
        for m in 0..count {
            best = best.max(self.counted_load(i, m));
        }
        best
    }

    // What transaction i demands in one major frame.
    fn share(&self, i: usize) -> u64
        requires { i < transactions self.now.tab }
        ensures { result ≡ self.now.tab.frame / period self.now.tab i * most_load self.now.tab self.now.u self.now.a i }
    {
        reads::frame(self.work) / reads::period(self.work, i) * self.most_load(i)
    }

    pub(crate) fn frame_demand(&self) -> u64
        ensures { result ≡ frame_demand self.now.tab self.now.u self.now.a }
    {
        let count = reads::transactions(self.work);
        let mut sum: u64 = 0;
        for i in 0..count {
            sum += self.share(i);
        }
        sum
    }

    pub(crate) fn is_overload(&self) -> bool
        ensures { result ≡ tested (overload? self.now.tab self.now.u self.now.a) }
    {
        reads::frame(self.work) < self.frame_demand()
    }
}
