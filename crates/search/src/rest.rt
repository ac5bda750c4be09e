// A planner at rest: it allows Begin. Each call is defined and ends whatever the tables hold.
ghost use Rattle.std.specs.Prelude.{◌≡◌, ℕ, ◌≤◌, List, length};
ghost use Rattle.task.specs.declared.data.Action.{Action};
ghost use Rattle.task.specs.Benches.{Bench, Lawful, bench_of};
ghost use Rattle.search.specs.Session.{Call, beginning, begin_fault};
ghost use Rattle.search.specs.Left.{lent, on_entry, on_exit, Untouched, OfTask, LeftRest, Began, refusal_of, GivenBack, IfDone, Laid};

use crate::checks::check_begin;
use crate::phase::{Asked, Refused, Rest, Search, Tables};
use crate::sizes::{Limits, Sizes};
use crate::steps::{begin_rows, clear_first};
use tariff::Tariff;
use task::{Setting, Task};

impl Rest {
    // A planner that is new at rest, for a bench that was read.
    pub fn new(task: Task) -> Rest
        ensures task { result.task ≡ task }
        ensures bench { (table : List Action) → task.actions ≤ length table → OfTask result.task (bench_of task table) }
    {
        Self { task }
    }

    // Its task, for whoever needs the planner no longer.
    pub fn into_task(self) -> Task
        ensures { result ≡ self.task }
    {
        let Rest { task } = self;
        task
    }
}

impl<C: Copy> Asked<C> {
    // The planner at rest again, with its task.
    pub(crate) fn give_up(self) -> Rest
        ensures { result.task ≡ self.task }
    {
        // Each field is named, here and in both `abandon`: what is no Drop is taken apart whole.
        let Asked {
            task,
            start: _,
            limits: _,
        } = self;
        Rest { task }
    }
}

// Begins a search for a plan from the start that costs at most the bound, with as many rows as the row
// table has places.
pub fn begin<T: Tariff>(
    tariff: &T,
    rest: Rest,
    tables: Tables<T::Charge>,
    start: Setting,
    bound: T::Charge,
) -> Result<Search<T::Charge>, Refused<Rest>>
    ensures promised { (b : Bench) (calls : List (Call T.Charge)) (actions : ℕ) → Lawful b → LeftRest b (T.charges tariff.now) calls rest → Began b (T.charges tariff.now) calls (beginning start bound (lent actions tables.entry)) result (on_exit tables.exit) }
    ensures refused { (b : Bench) (actions : ℕ) → OfTask rest.task b → refusal_of result ≡ begin_fault b start (lent actions tables.entry) }
    ensures stays { GivenBack rest (Untouched (on_entry tables.entry) (on_exit tables.exit)) result }
    ensures laid { IfDone (λ s. Laid rest (T.charges tariff.now).zero start bound s (on_entry tables.entry) (on_exit tables.exit)) result }
{
    // Without `?`: a refusal takes the phase with it, and what is not refused keeps it.
    if let Err(refusal) = check_begin(&rest.task, start, tables.lengths()) {
        return Err(Refused {
            phase: rest,
            refusal,
        });
    }
    let Tables {
        rows,
        queue,
        marks,
        work,
        ..
    } = tables;
    let capacity = rows.len();
    let Rest { task } = rest;
    begin_rows(tariff, rows, queue, capacity, start);
    clear_first(marks, task.actions);
    clear_first(work, 4096);
    let limits = Limits { bound, capacity };
    let asked = Asked {
        task,
        start,
        limits,
    };
    let sizes = Sizes {
        used: 1,
        waiting: 1,
    };
    Ok(Search {
        asked,
        sizes,
        expanded: 0,
    })
}
