// Whole cycles of the L chain at once. A mark stays behind at some t; where the chain has come whole major frames further, the
// way from the mark is gone once more, each evaluation beside the one that much later. If all of them agree it is a cycle, and
// as many more as there is room for are counted and not walked.
ghost use Rattle.std.specs.Prelude.{◌≡◌, ◌+◌, ◌<◌, ◌≤◌, IfSome};
ghost use Rattle.table.specs.Limits.{horizon};
ghost use Rattle.analysis.specs.Bound.{busy};
ghost use Rattle.cycle.specs.Cycle.{Cycle};
ghost use Rattle.answers.specs.Turn.{IsInstant};
ghost use Rattle.answers.specs.Ahead.{Met, Follows, WholeFrames, GoesOn};

use super::instant::Instant;
use super::lent::Linked;
use super::quantity::Ticks;
use super::reads;
use row::Table;

// Where a chain goes on after that many evaluations, and where its mark is.
#[derive(Clone, Copy)]
pub(crate) struct Ahead {
    pub(crate) t: Ticks,
    pub(crate) evaluations: u32,
    pub(crate) mark: Ticks,
}

// The mark for a chain at t: it stays until t is twice as far.
fn moved(mark: Ticks, t: Ticks) -> Ticks
    requires met { Met mark.0 }
    requires met_2 { Met t.0 }
    ensures { Met result.0 }
{
    if t.0 < 2 * mark.0 { mark } else { t }
}

impl Linked<'_> {
    // The value at z, if it lies above z, not beyond the end, and comes again `far` later.
    fn follower(&self, x: Instant, far: Ticks, end: Ticks, z: Ticks) -> Option<Ticks>
        requires instant { IsInstant self.now.tab self.now.u self.now.a x.mode x.candidate x }
        requires far_bound { z.0 + far.0 ≤ horizon }
        requires end_le_horizon { end.0 ≤ horizon }
        ensures { IfSome result (λ v. Follows (busy self.now.tab self.now.u self.now.a x.mode x.candidate) far.0 end.0 z.0 v.0) }
    {
        let value = self.busy(x, z);
        if value.0 <= z.0 || end.0 < value.0 {
            return None;
        }
        let later = self.busy(x, Ticks(z.0 + far.0));
        (later.0 == value.0 + far.0).then_some(value)
    }

    // The evaluations of the cycle that begins at the mark, if it is one.
    fn cycle_from(&self, x: Instant, far: Ticks, mark: Ticks) -> Option<u32>
        requires instant { IsInstant self.now.tab self.now.u self.now.a x.mode x.candidate x }
        requires far_bound { mark.0 + far.0 + far.0 ≤ horizon }
        ensures { IfSome result (Cycle (busy self.now.tab self.now.u self.now.a x.mode x.candidate) far.0 mark.0) }
    {
        let end = Ticks(mark.0 + far.0);
        let mut z = mark;
        let mut evaluations: u32 = 0;
        // a turn goes as far as the value is: no `for` says where the next begins
        while z.0 < end.0 {
            z = self.follower(x, far, end, z)?;
            evaluations += 1;
        }
        Some(evaluations)
    }

    // The chain at t, whole major frames after the mark: cycles can only come again that leave no tick of a frame free.
    fn after_frames(&self, x: Instant, mark: Ticks, t: Ticks, left: u32) -> Ahead
        requires instant { IsInstant self.now.tab self.now.u self.now.a x.mode x.candidate x }
        requires met { Met mark.0 }
        requires met_2 { Met t.0 }
        requires whole_frames { WholeFrames self.now.tab mark.0 t.0 }
        ensures { GoesOn (busy self.now.tab self.now.u self.now.a x.mode x.candidate) left t.0 result }
    {
        let far = Ticks(t.0 - mark.0);
        let room = u64::from(Table::horizon()) - t.0;
        let here = Ahead {
            t,
            evaluations: 0,
            mark: t,
        };
        // to see a cycle costs two evaluations for each of its own: it pays where three more have room
        if room < 3 * far.0 || self.frame_demand() != reads::frame(self.work) {
            return here;
        }
        let Some(evaluations) = self.cycle_from(x, far, mark) else {
            return here;
        };
        let rounds = cycle::rounds(far.0, evaluations, room, left);
        Ahead {
            t: Ticks(t.0 + u64::from(rounds) * far.0),
            evaluations: rounds * evaluations,
            mark: t,
        }
    }

    // From t on, with so many evaluations left.
    pub(crate) fn go_on(&self, x: Instant, frame: u64, mark: Ticks, t: Ticks, left: u32) -> Ahead
        requires instant { IsInstant self.now.tab self.now.u self.now.a x.mode x.candidate x }
        requires frame_value { frame ≡ self.now.tab.frame }
        requires met { Met mark.0 }
        requires met_2 { Met t.0 }
        ensures { GoesOn (busy self.now.tab self.now.u self.now.a x.mode x.candidate) left t.0 result }
    {
        // most chains end within a frame
        if t.0 < mark.0 + frame {
            return Ahead {
                t,
                evaluations: 0,
                mark,
            };
        }
        if (t.0 - mark.0) % frame == 0 {
            return self.after_frames(x, mark, t, left);
        }
        Ahead {
            t,
            evaluations: 0,
            mark: moved(mark, t),
        }
    }
}
