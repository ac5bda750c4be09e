// The checks of the calls, each in its order.
ghost use Rattle.std.specs.Prelude.{◌≡◌, ℕ, ◌<◌, ◌≤◌, List, length, take, None, OnOk};
ghost use Rattle.std.specs.Result.{result_err};
ghost use Rattle.task.specs.Settings.{outside};
ghost use Rattle.task.specs.Benches.{Bench};
ghost use Rattle.search.specs.Session.{short, start_outside, begin_fault, advance_fault, end_fault, take_fault};
ghost use Rattle.search.specs.Counts.{Spacious};
ghost use Rattle.search.specs.Left.{lengths, table_number, many, OfTask, end_of, HasLeft, CanTake};

use crate::phase::{Asked, Ended, Ending, Tables};
use task::{Fault, Refusal, Setting, Task, first_outside};

// The tables that are lent, each under the number that a refusal names it by.
#[derive(Clone, Copy)]
enum Table {
    Actions = 1,
    Rows = 2,
    Queue = 3,
    Plan = 4,
    Marks = 5,
    Work = 6,
}

// How many places each of the tables beside the actions has.
#[derive(Clone, Copy)]
pub(crate) struct Lengths {
    pub rows: usize,
    pub queue: usize,
    pub plan: usize,
    pub marks: usize,
    pub work: usize,
}

impl<C> Tables<'_, '_, '_, '_, '_, C> {
    // How many places they have.
    pub(crate) fn lengths(&self) -> Lengths
        ensures { result ≡ record { rows = length self.now.rows.now; queue = length self.now.queue.now; plan = length self.now.plan.now; marks = length self.now.marks.now; work = length self.now.work.now } }
    {
        Lengths {
            rows: self.rows.len(),
            queue: self.queue.len(),
            plan: self.plan.len(),
            marks: self.marks.len(),
            work: self.work.len(),
        }
    }
}

// The table has the places that are needed.
fn check_length(table: Table, need: usize, have: usize) -> Result<(), Refusal>
    ensures long { OnOk result (need ≤ have) }
    ensures refused { result_err result ≡ short (table_number table) need have None }
{
    if have < need {
        return Err(Fault::ShortTable.at(table as usize));
    }
    Ok(())
}

// Each value of the start lies in the bench.
fn check_start(task: &Task, start: Setting) -> Result<(), Refusal>
    ensures { result_err result ≡ start_outside (outside (take task.now.variables task.now.sizes) 0 start) }
{
    match first_outside(task, start) {
        Some(variable) => Err(Fault::StartOutside.at(variable)),
        None => Ok(()),
    }
}

// Queue, plan list, marks and work serve a search with so many rows.
fn check_space(task: &Task, capacity: usize, lent: Lengths) -> Result<(), Refusal>
    ensures space { OnOk result (Spacious capacity task.now.actions lent) }
    ensures refused { result_err result ≡ short 3 capacity lent.queue (short 4 capacity lent.plan (short 5 task.now.actions lent.marks (short 6 4096 lent.work None))) }
{
    check_length(Table::Queue, capacity, lent.queue)?;
    check_length(Table::Plan, capacity, lent.plan)?;
    check_length(Table::Marks, task.actions, lent.marks)?;
    check_length(Table::Work, 4096, lent.work)
}

// A Begin is not refused.
pub(crate) fn check_begin(task: &Task, start: Setting, lent: Lengths) -> Result<(), Refusal>
    ensures space { OnOk result ((0 < lent.rows) × (lent.rows ≤ 65535) × Spacious lent.rows task.now.actions lent) }
    ensures refused { (b : Bench) (actions : ℕ) → OfTask task.now b → result_err result ≡ begin_fault b start (many actions lent) }
{
    if lent.rows == 0 || lent.rows > 65_535 {
        return Err(Fault::RowCount.at(Table::Rows as usize));
    }
    check_space(task, lent.rows, lent)?;
    check_start(task, start)
}

// An Advance is not refused.
pub(crate) fn check_advance<C: Copy>(
    asked: &Asked<C>,
    actions: usize,
    lent: Lengths,
) -> Result<(), Refusal>
    ensures space { OnOk result ((asked.now.task.actions ≤ actions) × (asked.now.limits.capacity ≤ lent.rows) × Spacious asked.now.limits.capacity asked.now.task.actions lent) }
    ensures refused { (b : Bench) → OfTask asked.now.task b → result_err result ≡ advance_fault b asked.now.limits.capacity (many actions lent) }
{
    let capacity = asked.limits.capacity;
    check_length(Table::Actions, asked.task.actions, actions)?;
    check_length(Table::Rows, capacity, lent.rows)?;
    check_space(&asked.task, capacity, lent)
}

// The end of a search has a step left for a Take.
fn check_end<C: Copy>(ending: Ending<C>, planned: usize, taken: usize) -> Result<(), Refusal>
    ensures left { OnOk result (HasLeft ending planned taken) }
    ensures refused { (list : List ℕ) → length list ≡ planned → result_err result ≡ end_fault (end_of ending list taken) }
{
    match ending {
        Ending::Found(_) if taken < planned => Ok(()),
        Ending::Found(_) => Err(Fault::NoStepLeft.at(0)),
        Ending::NoPlan | Ending::Full => Err(Fault::NoPlan.at(0)),
    }
}

// A Take is not refused.
pub(crate) fn check_take<C: Copy>(
    ended: &Ended<C>,
    actions: usize,
    plan: usize,
) -> Result<(), Refusal>
    ensures ready { OnOk result (CanTake ended.now actions plan) }
    ensures refused { (b : Bench) (list : List ℕ) (rows queue marks work : ℕ) → OfTask ended.now.asked.task b → length list ≡ ended.now.planned → result_err result ≡ take_fault b ended.now.asked.limits.capacity (end_of ended.now.ending list ended.now.taken) (lengths actions rows queue plan marks work) }
{
    check_length(Table::Actions, ended.asked.task.actions, actions)?;
    check_length(Table::Plan, ended.asked.limits.capacity, plan)?;
    check_end(ended.ending, ended.planned, ended.taken)
}
