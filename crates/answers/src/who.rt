// Who charges most: the greatest charge of a transaction, with the first mode and candidate that give it. It is looked up over all
// modes and rivals and not along the links, which keep the last of equal modes.
ghost use Rattle.std.specs.Prelude.{◌≡◌, ◌<◌, ◌^◌};
ghost use Rattle.row.specs.Row.{table_of};
ghost use Rattle.table.specs.Table.{transactions, modes, tasks};
ghost use Rattle.analysis.specs.Charge.{charge};
ghost use Rattle.analysis.specs.Rival.{rival?};
ghost use Rattle.analysis.specs.Who.{most_by, in_mode, most_charged};
ghost use Rattle.charge.specs.Later.{later_of};
ghost use Rattle.answers.specs.Split.{moment, IsSplit};
ghost use Rattle.answers.specs.Who.{most_said};

use super::charges::{Setting, Split};
use super::lent::{Linked, Weighed};
use super::quantity::Ticks;
use super::{charges, reads};

// A mode, and a candidate by its place in its transaction.
#[derive(Clone, Copy)]
pub(crate) struct Turn {
    pub(crate) mode: usize,
    pub(crate) candidate: usize,
}

// A charge, and the mode and the candidate that give it.
#[derive(Clone, Copy)]
pub(crate) struct Charged {
    pub(crate) ticks: Ticks,
    pub(crate) by: Turn,
}

impl Setting<'_> {
    // Its task after `most`: where it is a rival it counts if it charges more.
    fn rival(&self, whole: bool, most: Option<Charged>) -> Option<Charged>
        ensures { most_said result ≡ most_by (rival? self.now.tab self.now.u self.now.a self.now.i self.now.m self.now.c) (most_said most) (charge (later_of whole) self.now.tab self.now.u self.now.a self.now.i self.now.m self.now.c (moment self.now.x)) (record { mode = self.now.m; candidate = self.now.c }) }
    {
        let cells = Weighed {
            work: self.work,
            s: self.s,
        };
        if cells.weight(self.i, self.m, self.c) == 0 {
            return most;
        }
        let this = Charged {
            ticks: self.charge(whole),
            by: Turn {
                mode: self.m,
                candidate: self.c,
            },
        };
        match most {
            None => Some(this),
            Some(first) => {
                if first.ticks.0 < this.ticks.0 {
                    Some(this)
                } else {
                    most
                }
            }
        }
    }
}

impl Linked<'_> {
    // The tasks of mode m in image order, after `before`.
    fn mode(
        &self,
        whole: bool,
        i: usize,
        m: usize,
        x: Split,
        before: Option<Charged>,
    ) -> Option<Charged>
        requires split { IsSplit self.now.tab i x }
        requires m_bound { m < modes self.now.tab i }
        ensures { most_said result ≡ in_mode (later_of whole) self.now.tab self.now.u self.now.a i (moment x) m (tasks self.now.tab i) (most_said before) }
    {
        let mut most = before;
        for c in 0..x.count {
            let setting = Setting {
                work: self.work,
                s: self.s,
                i,
                m,
                c,
                x,
            };
            most = setting.rival(whole, most);
        }
        most
    }

    // The greatest charge of transaction i by t, over its modes in ascending order, and who gives it first; nobody where it has
    // no rival.
    pub(crate) fn most_charged(&self, whole: bool, i: usize, t: Ticks) -> Option<Charged>
        requires i_bound { i < transactions self.now.tab }
        requires t_bound { t.0 < 2 ^ 32 }
        ensures { most_said result ≡ most_charged (later_of whole) self.now.tab self.now.u self.now.a i t.0 }
    {
        let x = charges::split_of(self.work, i, t);
        let count = reads::modes(self.work, i);
        let mut most = None;
        for m in 0..count {
            most = self.mode(whole, i, m, x, most);
        }
        most
    }
}
