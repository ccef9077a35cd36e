// The completion: the least t that the workload comes back to. The search is at a sound start all the time: no completion lies below it. It
// goes on to the workload there, or further where a line that lies below what the rivals request allows it.
ghost use Rattle.std.specs.Prelude.{◌≡◌, ◌+◌, ◌<◌, ◌≤◌};
ghost use Rattle.row.specs.Row.{table_of};
ghost use Rattle.table.specs.Table.{transactions, blocking, time};
ghost use Rattle.table.specs.Limits.{horizon};
ghost use Rattle.jitter.specs.Plain.{workload};
ghost use Rattle.jitter.specs.Start.{Sound, load};
ghost use Rattle.beside.specs.Lent.{IsRival};
ghost use Rattle.beside.specs.Search.{IsPass, Finds};

use super::reads::Alone;
use row::Table;

// What a pass over the first rivals finds at t: all that they request, and a line below what they request from t on: in a major frame's time
// slope·s + jitters + frame·level at s.
#[derive(Clone, Copy)]
struct Pass {
    all: u64,
    slope: u64,
    jitters: u64,
    level: u64,
}

// A step of the search: at t, for a task whose rivals leave time in a major frame.
#[derive(Clone, Copy)]
struct Step<'a> {
    task: Alone<'a>,
    t: u64,
    // How far ahead of t a rival's next job may be for its load to count, and not what it requests at t.
    span: u64,
    ghost room: { load (table_of task.row.now) task.u < (table_of task.row.now).frame },
    ghost within: { t ≤ horizon },
}

impl Step<'_> {
    // A pass, and with a rival: in the line by its load where its next job is less than `span` ahead, else by what it requests at t.
    fn counted(&self, i: usize, seen: Pass) -> Pass
        requires i_bound { i < transactions (table_of self.now.task.row.now) }
        requires rival { IsRival (table_of self.now.task.row.now) self.now.task.u i }
        requires pass { IsPass (table_of self.now.task.row.now) self.now.task.u self.now.t i seen }
        ensures { IsPass (table_of self.now.task.row.now) self.now.task.u self.now.t (i + 1) result }
    {
        let rival = Alone {
            row: self.task.row,
            u: i,
        };
        let jobs = rival.jobs(self.t);
        let request = rival.time_of(jobs);
        let jitter = u64::from(rival.jitter());
        let next = u64::from(jobs) * u64::from(rival.period()) - (self.t + jitter);
        let all = seen.all + request;
        if next < self.span {
            let load = rival.demand();
            Pass {
                all,
                slope: seen.slope + load,
                jitters: seen.jitters + jitter * load,
                ..seen
            }
        } else {
            Pass {
                all,
                level: seen.level + request,
                ..seen
            }
        }
    }

    fn with(&self, i: usize, seen: Pass) -> Pass
        requires i_bound { i < transactions (table_of self.now.task.row.now) }
        requires pass { IsPass (table_of self.now.task.row.now) self.now.task.u self.now.t i seen }
        ensures { IsPass (table_of self.now.task.row.now) self.now.task.u self.now.t (i + 1) result }
    {
        if self.task.is_rival(i) {
            self.counted(i, seen)
        } else {
            seen
        }
    }

    // Over all rivals.
    fn over_all(&self) -> Pass
        ensures { IsPass (table_of self.now.task.row.now) self.now.task.u self.now.t (transactions (table_of self.now.task.row.now)) result }
    {
        let mut seen = Pass {
            all: 0,
            slope: 0,
            jitters: 0,
            level: 0,
        };
        for i in 0..self.task.transactions() {
            seen = self.with(i, seen);
        }
        seen
    }

    // A sound start beyond t, from its workload on: where B + C and the line meet t, if that is further.
    fn further(&self, own: u64, value: u64, seen: Pass) -> u64
        requires sound { Sound (table_of self.now.task.row.now) self.now.task.u self.now.t }
        requires own_value { own ≡ blocking (table_of self.now.task.row.now) self.now.task.u 0 + time (table_of self.now.task.row.now) self.now.task.u 0 0 }
        requires value_value { value ≡ workload (table_of self.now.task.row.now) self.now.task.u self.now.t }
        requires value_le_horizon { value ≤ horizon }
        requires pass { IsPass (table_of self.now.task.row.now) self.now.task.u self.now.t (transactions (table_of self.now.task.row.now)) seen }
        ensures sound { Sound (table_of self.now.task.row.now) self.now.task.u result }
        ensures on { value ≤ result }
    {
        let frame = u64::from(self.task.frame());
        let left = frame - seen.slope;
        let meet = (frame * (own + seen.level) + seen.jitters + (left - 1)) / left;
        value.max(meet)
    }
}

// The search on the way: from 1, each time as far as the last step went.
fn walk(task: Alone) -> Option<u64>
    requires { load (table_of task.row.now) task.u < (table_of task.row.now).frame }
    ensures { Finds (table_of task.entry.row.now) task.entry.u result }
{
    let horizon = u64::from(Table::horizon());
    let own = task.own();
    let mut span = horizon;
    let mut t: u64 = 1;
    // a step is as long as the line allows: no `for` says where the next one is
    while t <= horizon {
        let step = Step { task, t, span };
        let seen = step.over_all();
        let value = own + seen.all;
        if value == t {
            return Some(t);
        }
        if horizon < value {
            return None;
        }
        let next = step.further(own, value, seen);
        span = next - t;
        t = next;
    }
    None
}

// Rivals that fill the major frame leave no completion.
pub(crate) fn search(task: Alone) -> Option<u64>
    ensures { Finds (table_of task.entry.row.now) task.entry.u result }
{
    if u64::from(task.frame()) <= task.load() {
        return None;
    }
    walk(task)
}
