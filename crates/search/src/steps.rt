// The steps of a search on its tables. The tables may hold anything: what is said of rows and queue
// has its premise, and each function is defined and ends on all contents.
ghost use Rattle.std.specs.Prelude.{◌≡◌, ℕ, ◌+◌, ◌<◌, ◌≤◌, Bool, false, ◌&&◌, List, length, take, drop, IfOk, IfErr, ◌==◌, slice_index};
ghost use Rattle.task.specs.Settings.{met};
ghost use Rattle.task.specs.Benches.{Bench, Lawful, SettingOf, act, act_of, bench_of, world};
ghost use Rattle.tariff.specs.Charges.{Charges};
ghost use Rattle.tariff.specs.Totals.{SumOfFew, and_act};
ghost use Rattle.rules.specs.Marks.{Zeros};
ghost use Rattle.task.specs.declared.data.Action.{Action};
ghost use Rattle.search.specs.Lending.{SameTable};
ghost use Rattle.search.specs.Rows.{on};
ghost use Rattle.search.specs.Steps.{Quest, problem, going, Addable, onward, sweep, expand, advance, first_rows};
ghost use Rattle.search.specs.Lined.{Lined};
ghost use Rattle.search.specs.Counts.{FirstIn, Grew, Low, Tallied, Served, posed, swept, byte_marked, outcome_of, state_of, stepped, Sound};

use crate::data::Row;
use crate::entry::{Entry, Waiting};
use crate::marker::Marker;
use crate::open::Open;
use crate::phase::Search;
use crate::queue::Queue;
use crate::sizes::{Full, Limits, Progress, Ran, Sizes, Source};
use rules::Rule;
use tariff::Tariff;
use task::{Action, Setting, Task, applicable, goal_holds};

// Row 0: the start at zero charge, open and first in the queue.
pub(crate) fn begin_rows<T: Tariff>(
    tariff: &T,
    rows: &mut [Row<T::Charge>],
    queue: &mut [Entry<T::Charge>],
    capacity: usize,
    start: Setting,
)
    requires { (0 < capacity) × (capacity ≤ 65535) × (capacity ≤ length rows.old) × (capacity ≤ length queue.old) }
    ensures rows { (b : Bench) (limits : Limits T.Charge) → take 1 rows.new ≡ first_rows (problem b (T.charges tariff.now) (posed start limits)) }
    ensures rest { drop 1 rows.new ≡ drop 1 rows.old }
    ensures lined { Lined (T.charges tariff.now).le (take 1 rows.new) 1 queue.new }
{
    let charge = tariff.zero();
    rows[0] = Row {
        setting: start,
        charge,
        closed: false,
        origin: 0,
        action: 0,
    };
    let mut waiting = Queue {
        tariff,
        table: queue,
        count: 0,
    };
    waiting.push(Waiting { charge, row: 0 });
}

// Is the action marked and applicable?
fn is_offered(mark: u8, action: &Action, setting: Setting) -> bool
    ensures { result ≡ (mark == 1 && met setting (act_of action.now).conditions) }
{
    mark == 1 && applicable(action, setting)
}

// Sets the first bytes to zero.
pub(crate) fn clear_first(bytes: &mut [u8], count: usize)
    requires { count ≤ length bytes.old }
    ensures clear { Zeros (take count bytes.new) }
    ensures rest { drop count bytes.new ≡ drop count bytes.old }
{
    bytes[0..count].fill(0);
}

impl<T: Tariff> Open<'_, '_, '_, '_, T> {
    // Tries one action from the source, if it is marked and applicable. Inlined: most actions of a sweep are not, and
    // to be called for each of them costs more than to test it.
    #[inline(always)]
    fn try_action(
        &mut self,
        source: Source<T::Charge>,
        number: u16,
        action: &Action,
        mark: u8,
    ) -> Result<(), Full>
        ensures rows { (b : Bench) (start marks : List ℕ) → number < length b.actions → act b number ≡ act_of action.now → slice_index marks number ≡ mark → SumOfFew (T.charges self.old.tariff.now) (and_act (T.charges self.old.tariff.now) source.charge (act_of action.now)) → swept result (take self.new.sizes.used self.new.rows.now) ≡ onward (problem b (T.charges self.old.tariff.now) (posed start self.old.limits.now)) (byte_marked marks) source.row source.setting source.charge (on (take self.old.sizes.used self.old.rows.now)) number }
        ensures grew { Grew self.old.limits.now.capacity 0 self.old.sizes self.new.sizes }
        ensures rest { drop self.new.sizes.used self.new.rows.now ≡ drop self.new.sizes.used self.old.rows.now }
        ensures lined { Lined (T.charges self.old.tariff.now).le (take self.old.sizes.used self.old.rows.now) self.old.sizes.waiting self.old.table.now → Lined (T.charges self.old.tariff.now).le (take self.new.sizes.used self.new.rows.now) self.new.sizes.waiting self.new.table.now }
        ensures kept { SameTable self.old.rows self.new.rows × SameTable self.old.table self.new.table × (self.new.tariff ≡ self.old.tariff) × (self.new.limits ≡ self.old.limits) }
    {
        if !is_offered(mark, action, source.setting) {
            return Ok(());
        }
        self.relax(source, number, action)
    }

    // Tries each offered action from the source, in the order of their numbers, until no row is left for one. Not
    // inlined: among its caller's code the loop took a tenth to a third longer.
    #[inline(never)]
    fn sweep<R: Rule>(&mut self, marker: &Marker<R>, source: Source<T::Charge>) -> Result<(), Full>
        ensures rows { (start : List ℕ) → Addable (problem (bench_of marker.now.task.now marker.now.actions.now) (T.charges self.old.tariff.now) (posed start self.old.limits.now)) source.charge → swept result (take self.new.sizes.used self.new.rows.now) ≡ sweep (problem (bench_of marker.now.task.now marker.now.actions.now) (T.charges self.old.tariff.now) (posed start self.old.limits.now)) (byte_marked marker.now.marks.now) source.row source.setting source.charge (take self.old.sizes.used self.old.rows.now) marker.now.task.now.actions }
        ensures grew { Grew self.old.limits.now.capacity 0 self.old.sizes self.new.sizes }
        ensures rest { drop self.new.sizes.used self.new.rows.now ≡ drop self.new.sizes.used self.old.rows.now }
        ensures lined { Lined (T.charges self.old.tariff.now).le (take self.old.sizes.used self.old.rows.now) self.old.sizes.waiting self.old.table.now → Lined (T.charges self.old.tariff.now).le (take self.new.sizes.used self.new.rows.now) self.new.sizes.waiting self.new.table.now }
        ensures kept { SameTable self.old.rows self.new.rows × SameTable self.old.table self.new.table × (self.new.tariff ≡ self.old.tariff) × (self.new.limits ≡ self.old.limits) }
    {
        let actions = &marker.actions[0..marker.task.actions];
        for (number, action) in actions.iter().enumerate() {
            // The number is wanted in any case, and the mark lies at it.
            self.try_action(source, number as u16, action, marker.marks[number])?;
        }
        Ok(())
    }

    // Expands the source, the row that is first in the queue: closes it, and tries each offered action.
    fn expand<R: Rule>(
        &mut self,
        marker: &mut Marker<R>,
        source: Source<T::Charge>,
    ) -> Result<(), Full>
        requires { (0 < self.old.sizes.waiting) × (source.row < self.old.sizes.used) }
        ensures rows { (start : List ℕ) → FirstIn self.old.rows.now self.old.table.now self.old.sizes source → Lawful (bench_of marker.old.task.now marker.old.actions.now) → SettingOf (bench_of marker.old.task.now marker.old.actions.now) source.setting → Addable (problem (bench_of marker.old.task.now marker.old.actions.now) (T.charges self.old.tariff.now) (posed start self.old.limits.now)) source.charge → swept result (take self.new.sizes.used self.new.rows.now) ≡ expand (problem (bench_of marker.old.task.now marker.old.actions.now) (T.charges self.old.tariff.now) (posed start self.old.limits.now)) ((R.marking marker.old.rule.now).marks (bench_of marker.old.task.now marker.old.actions.now)) (take self.old.sizes.used self.old.rows.now) source.row }
        ensures grew { Grew self.old.limits.now.capacity 1 self.old.sizes self.new.sizes }
        ensures rest { drop self.new.sizes.used self.new.rows.now ≡ drop self.new.sizes.used self.old.rows.now }
        ensures lined { FirstIn self.old.rows.now self.old.table.now self.old.sizes source → Lined (T.charges self.old.tariff.now).le (take self.old.sizes.used self.old.rows.now) self.old.sizes.waiting self.old.table.now → Lined (T.charges self.old.tariff.now).le (take self.new.sizes.used self.new.rows.now) self.new.sizes.waiting self.new.table.now }
        ensures kept { SameTable self.old.rows self.new.rows × SameTable self.old.table self.new.table × (self.new.tariff ≡ self.old.tariff) × (self.new.limits ≡ self.old.limits) }
        ensures clear { Zeros (take 4096 marker.new.work.now) }
        ensures beyond { (drop marker.old.task.now.actions marker.new.marks.now ≡ drop marker.old.task.now.actions marker.old.marks.now) × (drop 4096 marker.new.work.now ≡ drop 4096 marker.old.work.now) }
        ensures lent { SameTable marker.old.marks marker.new.marks × SameTable marker.old.work marker.new.work × (marker.new.rule ≡ marker.old.rule) × (marker.new.task ≡ marker.old.task) × (marker.new.actions ≡ marker.old.actions) }
    {
        self.close_first(source.row);
        marker.mark(source.setting);
        self.sweep(marker, source)
    }

    // The row to expand next, or how the search ended.
    fn look(&self, task: &Task) -> Result<Source<T::Charge>, Progress>
        ensures found { IfOk result (FirstIn self.now.rows.now self.now.table.now self.now.sizes) }
        ensures off { IfOk result (λ source. (table : List Action) → (world (bench_of task.now table)).goal source.setting ≡ false) }
        ensures low { IfErr result (λ end. Low end self.now.sizes.used) }
        ensures ended { IfErr result (λ end. (table : List Action) (K : Charges T.Charge) (q : Quest T.Charge) (marking : List ℕ → ℕ → Bool) (k n : ℕ) → Lined K.le (take self.now.sizes.used self.now.rows.now) self.now.sizes.waiting self.now.table.now → advance (problem (bench_of task.now table) K q) marking k (take self.now.sizes.used self.now.rows.now) n ≡ record { rows = take self.now.sizes.used self.now.rows.now; count = n; outcome = outcome_of end }) }
    {
        let Some(source) = self.first_row() else {
            return Err(Progress::Exhausted);
        };
        let setting = source.setting;
        if goal_holds(task, setting) {
            return Err(Progress::AtGoal(source.row));
        }
        Ok(source)
    }

    // One step: looks for an end, and expands a row where there is none.
    fn step<R: Rule>(&mut self, marker: &mut Marker<R>) -> Result<(), Progress>
        ensures more { self.old.sizes.used ≤ self.new.sizes.used }
        ensures low { IfErr result (λ end. Low end self.new.sizes.used) }
        ensures ran { (start : List ℕ) → Lawful (bench_of marker.old.task.now marker.old.actions.now) → Sound (bench_of marker.old.task.now marker.old.actions.now) (T.charges self.old.tariff.now) (posed start self.old.limits.now) ((R.marking marker.old.rule.now).marks (bench_of marker.old.task.now marker.old.actions.now)) (take self.old.sizes.used self.old.rows.now) self.old.expanded → Lined (T.charges self.old.tariff.now).le (take self.old.sizes.used self.old.rows.now) self.old.sizes.waiting self.old.table.now → (k : ℕ) → advance (problem (bench_of marker.old.task.now marker.old.actions.now) (T.charges self.old.tariff.now) (posed start self.old.limits.now)) ((R.marking marker.old.rule.now).marks (bench_of marker.old.task.now marker.old.actions.now)) (k + 1) (take self.old.sizes.used self.old.rows.now) self.old.expanded ≡ stepped result (advance (problem (bench_of marker.old.task.now marker.old.actions.now) (T.charges self.old.tariff.now) (posed start self.old.limits.now)) ((R.marking marker.old.rule.now).marks (bench_of marker.old.task.now marker.old.actions.now)) k) (take self.new.sizes.used self.new.rows.now) self.new.expanded }
        ensures rest { drop self.new.sizes.used self.new.rows.now ≡ drop self.new.sizes.used self.old.rows.now }
        ensures lined { Lined (T.charges self.old.tariff.now).le (take self.old.sizes.used self.old.rows.now) self.old.sizes.waiting self.old.table.now → Lined (T.charges self.old.tariff.now).le (take self.new.sizes.used self.new.rows.now) self.new.sizes.waiting self.new.table.now }
        ensures kept { SameTable self.old.rows self.new.rows × SameTable self.old.table self.new.table × (self.new.tariff ≡ self.old.tariff) × (self.new.limits ≡ self.old.limits) }
        ensures clear { Zeros (take 4096 marker.old.work.now) → Zeros (take 4096 marker.new.work.now) }
        ensures beyond { (drop marker.old.task.now.actions marker.new.marks.now ≡ drop marker.old.task.now.actions marker.old.marks.now) × (drop 4096 marker.new.work.now ≡ drop 4096 marker.old.work.now) }
        ensures lent { SameTable marker.old.marks marker.new.marks × SameTable marker.old.work marker.new.work × (marker.new.rule ≡ marker.old.rule) × (marker.new.task ≡ marker.old.task) × (marker.new.actions ≡ marker.old.actions) }
    {
        let source = self.look(marker.task)?;
        self.expand(marker, source)?;
        Ok(())
    }

    // Up to so many steps; looks for an end once more after the last.
    fn run_steps<R: Rule>(&mut self, marker: &mut Marker<R>, steps: usize) -> Result<(), Progress>
        ensures more { self.old.sizes.used ≤ self.new.sizes.used }
        ensures low { IfErr result (λ end. Low end self.new.sizes.used) }
        ensures ran { (start : List ℕ) → Lawful (bench_of marker.old.task.now marker.old.actions.now) → Sound (bench_of marker.old.task.now marker.old.actions.now) (T.charges self.old.tariff.now) (posed start self.old.limits.now) ((R.marking marker.old.rule.now).marks (bench_of marker.old.task.now marker.old.actions.now)) (take self.old.sizes.used self.old.rows.now) self.old.expanded → Lined (T.charges self.old.tariff.now).le (take self.old.sizes.used self.old.rows.now) self.old.sizes.waiting self.old.table.now → advance (problem (bench_of marker.old.task.now marker.old.actions.now) (T.charges self.old.tariff.now) (posed start self.old.limits.now)) ((R.marking marker.old.rule.now).marks (bench_of marker.old.task.now marker.old.actions.now)) steps (take self.old.sizes.used self.old.rows.now) self.old.expanded ≡ stepped result (λ rows n. record { rows = rows; count = n; outcome = going }) (take self.new.sizes.used self.new.rows.now) self.new.expanded }
        ensures rest { drop self.new.sizes.used self.new.rows.now ≡ drop self.new.sizes.used self.old.rows.now }
        ensures lined { Lined (T.charges self.old.tariff.now).le (take self.old.sizes.used self.old.rows.now) self.old.sizes.waiting self.old.table.now → Lined (T.charges self.old.tariff.now).le (take self.new.sizes.used self.new.rows.now) self.new.sizes.waiting self.new.table.now }
        ensures kept { SameTable self.old.rows self.new.rows × SameTable self.old.table self.new.table × (self.new.tariff ≡ self.old.tariff) × (self.new.limits ≡ self.old.limits) }
        ensures clear { Zeros (take 4096 marker.old.work.now) → Zeros (take 4096 marker.new.work.now) }
        ensures beyond { (drop marker.old.task.now.actions marker.new.marks.now ≡ drop marker.old.task.now.actions marker.old.marks.now) × (drop 4096 marker.new.work.now ≡ drop 4096 marker.old.work.now) }
        ensures lent { SameTable marker.old.marks marker.new.marks × SameTable marker.old.work marker.new.work × (marker.new.rule ≡ marker.old.rule) × (marker.new.task ≡ marker.old.task) × (marker.new.actions ≡ marker.old.actions) }
    {
        for _ in 0..steps {
            self.step(marker)?;
        }
        self.look(marker.task)?;
        Ok(())
    }
}

// The steps of a search on what is lent to a call, with the marks zero afterwards. Each table is listed here
// alone, where the two structs are made of them.
pub(crate) fn run<T: Tariff, R: Rule>(
    tariff: &T,
    rule: &R,
    search: &Search<T::Charge>,
    actions: &[Action],
    rows: &mut [Row<T::Charge>],
    queue: &mut [Entry<T::Charge>],
    marks: &mut [u8],
    work: &mut [u8],
    steps: usize,
) -> Ran
    requires served { Served search.now.asked.task.actions (length actions.now) (length marks.old) (length work.old) }
    requires sized { (search.now.asked.limits.capacity ≤ length rows.old) × (search.now.asked.limits.capacity ≤ length queue.old) }
    ensures tallied { Tallied search.now.asked.limits.capacity search.now.sizes result }
    ensures ran { (start : List ℕ) → Lawful (bench_of search.now.asked.task actions.now) → Sound (bench_of search.now.asked.task actions.now) (T.charges tariff.now) (posed start search.now.asked.limits) ((R.marking rule.now).marks (bench_of search.now.asked.task actions.now)) (take search.now.sizes.used rows.old) search.now.expanded → Lined (T.charges tariff.now).le (take search.now.sizes.used rows.old) search.now.sizes.waiting queue.old → advance (problem (bench_of search.now.asked.task actions.now) (T.charges tariff.now) (posed start search.now.asked.limits)) ((R.marking rule.now).marks (bench_of search.now.asked.task actions.now)) steps (take search.now.sizes.used rows.old) search.now.expanded ≡ state_of result rows.new }
    ensures rest { drop result.sizes.used rows.new ≡ drop result.sizes.used rows.old }
    ensures lined { Lined (T.charges tariff.now).le (take search.now.sizes.used rows.old) search.now.sizes.waiting queue.old → Lined (T.charges tariff.now).le (take result.sizes.used rows.new) result.sizes.waiting queue.new }
    ensures marks { Zeros (take search.now.asked.task.actions marks.new) }
    ensures work { Zeros (take 4096 work.old) → Zeros (take 4096 work.new) }
    ensures kept { (drop search.now.asked.task.actions marks.new ≡ drop search.now.asked.task.actions marks.old) × (drop 4096 work.new ≡ drop 4096 work.old) }
{
    let limits = search.asked.limits;
    let mut open = Open {
        tariff,
        rows,
        table: queue,
        sizes: search.sizes,
        limits: &limits,
        expanded: search.expanded,
    };
    let mut marker = Marker {
        rule,
        task: &search.asked.task,
        actions,
        marks,
        work,
    };
    let ended = open.run_steps(&mut marker, steps);
    let progress = ended.err().unwrap_or(Progress::Going);
    let ran = Ran {
        sizes: open.sizes,
        expanded: open.expanded,
        progress,
    };
    clear_first(marks, search.asked.task.actions);
    ran
}
