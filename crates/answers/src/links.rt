// Links over what the rivals of the subject charge, in its work cells: from each setting, a candidate in a mode, to the next
// one that is charged, and from each transaction to the next other one that has a rival. They are filled from the
// last to the first.
ghost use Rattle.std.specs.Prelude.{◌≡◌, true, false, ◌+◌, ◌*◌, ◌<◌};
ghost use Rattle.row.specs.Row.{table_of};
ghost use Rattle.table.specs.Limits.{modes_most};
ghost use Rattle.table.specs.Number.{in_all};
ghost use Rattle.table.specs.Table.{IsTask, transactions, modes};
ghost use Rattle.charge.specs.Links.{Below, Dropped, Spare, Idle, NextSetting};
ghost use Rattle.answers.specs.Parts.{SameTo, LinkedFrom, OthersFrom};
ghost use Rattle.charge.specs.Weight.{weight, mode_weight};
ghost use Rattle.answers.specs.Work.{settings_cell, others_cell, Lent, Chosen, Weighs, IsSubject};

use super::charges::Subject;
use super::layout::Work;
use super::lent::Weighed;
use super::reads;
use row::{Table, Transaction};

impl Weighed<'_> {
    // The weight of task j of transaction i in mode m: 0 where it is no rival.
    #[tactic(auto, using(crate::proofs::Rooms::rooms))]
    pub(crate) fn weight(&self, i: usize, m: usize, j: usize) -> u32
        requires task { IsTask self.now.tab i j }
        requires m_bound { m < modes self.now.tab i }
        ensures { result ≡ weight self.now.tab self.now.u self.now.a i m j }
    {
        let work = self.work;
        work[Work::WEIGHTS + Table::TASKS * m + reads::number(work, i, j)]
    }

    // The weights of transaction i in mode m together.
    #[tactic(auto, using(crate::proofs::Rooms::rooms))]
    pub(crate) fn mode_weight(&self, i: usize, m: usize) -> u64
        requires i_bound { i < transactions self.now.tab }
        requires m_bound { m < modes self.now.tab i }
        ensures { result ≡ mode_weight self.now.tab self.now.u self.now.a i m }
    {
        let work = self.work;
        u64::from(work[Work::MODE_WEIGHTS + Transaction::MODES * i + m])
    }

    // Whether no task of transaction i weighs more in mode m than in mode n.
    fn is_below(&self, i: usize, m: usize, n: usize) -> bool
        requires i_bound { i < transactions self.now.tab }
        requires m_bound { m < modes self.now.tab i }
        requires n_bound { n < modes self.now.tab i }
        ensures { result ≡ true → Below self.now.tab self.now.u self.now.a i m n }
    {
        let count = reads::tasks(self.work, i);
        (0..count).all(|j| self.weight(i, m, j) <= self.weight(i, n, j))
    }

    // Whether some later mode weighs no less.
    fn is_dropped(&self, i: usize, m: usize) -> bool
        requires i_bound { i < transactions self.now.tab }
        requires m_bound { m < modes self.now.tab i }
        ensures { result ≡ true → Dropped self.now.tab self.now.u self.now.a i m }
    {
        let count = reads::modes(self.work, i);
        (m + 1..count).any(|n| self.is_below(i, m, n))
    }

    // Whether the setting of candidate c in mode m is charged; else it is spare.
    fn is_charged(&self, i: usize, m: usize, c: usize) -> bool
        requires task { IsTask self.now.tab i c }
        requires m_bound { m < modes self.now.tab i }
        ensures not_weight { result ≡ true → ¬ (weight self.now.tab self.now.u self.now.a i m c ≡ 0) }
        ensures spare { result ≡ false → Spare self.now.tab self.now.u self.now.a i m c }
    {
        self.weight(i, m, c) != 0 && !self.is_dropped(i, m)
    }

    // Whether transaction i charges nothing beside that of the subject.
    fn is_idle(&self, i: usize) -> bool
        requires { i < transactions self.now.tab }
        ensures idle { result ≡ true → Idle self.now.tab self.now.u self.now.a i }
        ensures not_i { result ≡ false → ¬ (i ≡ self.now.u) }
    {
        if i == self.s.u {
            return true;
        }
        let count = reads::modes(self.work, i);
        (0..count).all(|m| self.mode_weight(i, m) == 0)
    }
}

// Links the settings of task number k, where `after` is the next setting from the next task on; answers the next one from k on.
#[tactic(auto, using(crate::proofs::Rooms::rooms))]
fn link_task(work: &mut [u32; Work::CELLS], s: Subject, k: usize, after: u32) -> u32
    requires lent { Lent work.old }
    requires weighs { Weighs work.old s }
    requires k_bound { k < in_all (table_of work.old) }
    requires next_setting { NextSetting (table_of work.old) s.u s.a (modes_most * (k + 1)) after }
    requires linked_from { LinkedFrom (table_of work.old) s.u s.a (k + 1) work.old }
    ensures next_setting_2 { NextSetting (table_of work.old) s.u s.a (modes_most * k) result }
    ensures linked_from_2 { LinkedFrom (table_of work.old) s.u s.a k work.new }
    ensures same_to { SameTo settings_cell work.old work.new }
{
    let i = reads::owner(&*work, k);
    let c = k - reads::before(&*work, i);
    let modes = reads::modes(&*work, i);
    let mut next = after;
    work[Work::SETTINGS + (Transaction::MODES * k + modes)] = next;
    for m in (0..modes).rev() {
        let cells = Weighed { work: &*work, s };
        if cells.is_charged(i, m, c) {
            next = (Transaction::MODES * k + m) as u32;
        }
        work[Work::SETTINGS + (Transaction::MODES * k + m)] = next;
    }
    next
}

fn link_settings(work: &mut [u32; Work::CELLS], s: Subject)
    requires lent { Lent work.old }
    requires weighs { Weighs work.old s }
    ensures linked_from { LinkedFrom (table_of work.old) s.u s.a 0 work.new }
    ensures same_to { SameTo settings_cell work.old work.new }
{
    let count = reads::in_all(&*work);
    let mut next = (Transaction::MODES * count) as u32;
    for k in (0..count).rev() {
        next = link_task(work, s, k, next);
    }
}

fn link_others(work: &mut [u32; Work::CELLS], s: Subject)
    requires lent { Lent work.old }
    requires chosen { Chosen (table_of work.old) s }
    requires weighs { Weighs work.old s }
    ensures others_from { OthersFrom (table_of work.old) s.u s.a 0 work.new }
    ensures same_to { SameTo others_cell work.old work.new }
{
    let count = reads::transactions(&*work);
    let mut next = count as u32;
    work[Work::OTHERS + count] = next;
    for i in (0..count).rev() {
        let cells = Weighed { work: &*work, s };
        if !cells.is_idle(i) {
            next = i as u32;
        }
        work[Work::OTHERS + i] = next;
    }
}

// The links of work cells that have the weights of the subject.
pub(crate) fn link(work: &mut [u32; Work::CELLS], s: Subject)
    requires lent { Lent work.old }
    requires chosen { Chosen (table_of work.old) s }
    requires weighs { Weighs work.old s }
    ensures lent_2 { Lent work.new }
    ensures work_unchanged { table_of work.new ≡ table_of work.old }
    ensures subject { IsSubject work.new s }
{
    link_settings(work, s);
    link_others(work, s);
}
