// The rows of a search and those of them that wait, over lent tables. The tables may hold anything: what
// is said of rows and queue has its premise, and each function is defined and ends on all contents.
ghost use Rattle.std.specs.Prelude.{◌≡◌, ℕ, ◌+◌, ◌<◌, ◌≤◌, false, not, List, [], ◌∷◌, ◌++◌, length, get_or, take, drop, IfSome, Some, None, position, slice_index_or, slice_set};
ghost use Rattle.std.specs.Str.{bytes_eq};
ghost use Rattle.task.specs.Benches.{Bench, act, act_of};
ghost use Rattle.tariff.specs.Charges.{Charges};
ghost use Rattle.tariff.specs.Totals.{SumOfFew, and_act};
ghost use Rattle.search.specs.declared.data.Row.{Row};
ghost use Rattle.search.specs.Lending.{SameTable};
ghost use Rattle.search.specs.Rows.{settled, place, shut, least};
ghost use Rattle.search.specs.Steps.{problem, relaxed};
ghost use Rattle.search.specs.Lined.{Lined};
ghost use Rattle.search.specs.Counts.{FirstIn, Roomy, Grew, posed, swept};

use crate::data::Row;
use crate::entry::{Entry, Waiting};
use crate::queue::{Queue, waiting_at};
use crate::sizes::{Full, Limits, Sizes, Source};
use tariff::Tariff;
use task::{Action, Setting, successor};

// The rows of a search and the queue of those that wait, in lent tables; what they may not exceed, and how
// many rows were expanded.
#[derive(Drop)]
pub(crate) struct Open<'t, 'r, 'q, 'l, T: Tariff> {
    pub(crate) tariff: &'t T,
    pub(crate) rows: &'r mut [Row<T::Charge>],
    pub(crate) table: &'q mut [Entry<T::Charge>],
    pub(crate) sizes: Sizes,
    pub(crate) limits: &'l Limits<T::Charge>,
    pub(crate) expanded: usize,
    ghost roomy: { Roomy limits.now.capacity sizes (length rows.now) (length table.now) },
    ghost counted: { expanded + sizes.waiting ≡ sizes.used },
}

// The row number, if it is of a used row; else the first: a foreign table may name any.
fn within(row: u16, used: usize) -> u16
    requires { 0 < used }
    ensures low { result < used }
    ensures same { row < used → result ≡ row }
{
    if usize::from(row) < used { row } else { 0 }
}

impl<T: Tariff> Open<'_, '_, '_, '_, T> {
    // The number of the used row with this setting, if there is one.
    fn find(&self, setting: Setting) -> Option<usize>
        ensures { result ≡ position (λ r. bytes_eq r.setting setting) (take self.now.sizes.used self.now.rows.now) }
    {
        let used = &self.rows[0..self.sizes.used];
        used.iter().position(|row| row.setting == setting)
    }

    // Is the first charge smaller?
    #[tactic(auto, using(crate::proofs::Placings::less_says))]
    fn is_cheaper(&self, a: T::Charge, b: T::Charge) -> bool
        ensures { result ≡ not ((T.charges self.now.tariff.now).le b a) }
    {
        self.tariff.compare(a, b).is_lt()
    }

    // Keeps a used row, or lowers it to the new charge, origin and action where that charge is smaller.
    fn lower_row(&mut self, at: usize, new: Row<T::Charge>)
        requires { at < self.old.sizes.used }
        ensures rows { take self.old.sizes.used self.new.rows.now ≡ settled (T.charges self.old.tariff.now).zero (T.charges self.old.tariff.now).le (take self.old.sizes.used self.old.rows.now) new at }
        ensures rest { drop self.old.sizes.used self.new.rows.now ≡ drop self.old.sizes.used self.old.rows.now }
        ensures lined { Lined (T.charges self.old.tariff.now).le (take self.old.sizes.used self.old.rows.now) self.old.sizes.waiting self.old.table.now → Lined (T.charges self.old.tariff.now).le (take self.old.sizes.used self.new.rows.now) self.old.sizes.waiting self.new.table.now }
        ensures kept { SameTable self.old.rows self.new.rows × SameTable self.old.table self.new.table × (self.new.tariff ≡ self.old.tariff) × (self.new.limits ≡ self.old.limits) }
        ensures sizes { self.new.sizes ≡ self.old.sizes }
    {
        let held = self.rows[at];
        if !self.is_cheaper(new.charge, held.charge) {
            return;
        }
        let setting = held.setting;
        self.rows[at] = Row {
            setting,
            charge: new.charge,
            closed: held.closed,
            origin: new.origin,
            action: new.action,
        };
        let waiting = Waiting {
            charge: new.charge,
            row: at as u16,
        };
        let table = &mut *self.table;
        let mut queue = Queue {
            tariff: self.tariff,
            table,
            count: self.sizes.waiting,
        };
        queue.lower(waiting);
    }

    // Adds a row, and lets it wait.
    fn push_row(&mut self, new: Row<T::Charge>)
        requires { self.old.sizes.used < self.old.limits.now.capacity }
        ensures rows { take (self.old.sizes.used + 1) self.new.rows.now ≡ take self.old.sizes.used self.old.rows.now ++ new ∷ [] }
        ensures rest { drop (self.old.sizes.used + 1) self.new.rows.now ≡ drop (self.old.sizes.used + 1) self.old.rows.now }
        ensures lined { new.closed ≡ false → Lined (T.charges self.old.tariff.now).le (take self.old.sizes.used self.old.rows.now) self.old.sizes.waiting self.old.table.now → Lined (T.charges self.old.tariff.now).le (take (self.old.sizes.used + 1) self.new.rows.now) (self.old.sizes.waiting + 1) self.new.table.now }
        ensures kept { SameTable self.old.rows self.new.rows × SameTable self.old.table self.new.table × (self.new.tariff ≡ self.old.tariff) × (self.new.limits ≡ self.old.limits) }
        ensures used { self.new.sizes.used ≡ self.old.sizes.used + 1 }
        ensures waiting { self.new.sizes.waiting ≡ self.old.sizes.waiting + 1 }
    {
        let last = self.sizes.used;
        self.rows[last] = new;
        let waiting = Waiting {
            charge: new.charge,
            row: last as u16,
        };
        let table = &mut *self.table;
        let mut queue = Queue {
            tariff: self.tariff,
            table,
            count: self.sizes.waiting,
        };
        queue.push(waiting);
        let count = queue.count;
        self.sizes = Sizes {
            used: last + 1,
            waiting: count,
        };
    }

    // Puts a row in its place: one with its setting is kept or lowered, else it gets the next row, if one is
    // left.
    fn place_row(&mut self, new: Row<T::Charge>) -> Result<(), Full>
        ensures rows { swept result (take self.new.sizes.used self.new.rows.now) ≡ place (T.charges self.old.tariff.now).zero (T.charges self.old.tariff.now).le self.old.limits.now.capacity (take self.old.sizes.used self.old.rows.now) new }
        ensures grew { Grew self.old.limits.now.capacity 0 self.old.sizes self.new.sizes }
        ensures rest { drop self.new.sizes.used self.new.rows.now ≡ drop self.new.sizes.used self.old.rows.now }
        ensures lined { new.closed ≡ false → Lined (T.charges self.old.tariff.now).le (take self.old.sizes.used self.old.rows.now) self.old.sizes.waiting self.old.table.now → Lined (T.charges self.old.tariff.now).le (take self.new.sizes.used self.new.rows.now) self.new.sizes.waiting self.new.table.now }
        ensures kept { SameTable self.old.rows self.new.rows × SameTable self.old.table self.new.table × (self.new.tariff ≡ self.old.tariff) × (self.new.limits ≡ self.old.limits) }
    {
        let setting = new.setting;
        if let Some(at) = self.find(setting) {
            self.lower_row(at, new);
            return Ok(());
        }
        if self.sizes.used == self.limits.capacity {
            return Err(Full);
        }
        self.push_row(new);
        Ok(())
    }

    // Places the row to which an action leads from the source, if its charge stays within the bound.
    pub(crate) fn relax(
        &mut self,
        source: Source<T::Charge>,
        number: u16,
        action: &Action,
    ) -> Result<(), Full>
        ensures rows { (b : Bench) (start : List ℕ) → act b number ≡ act_of action.now → SumOfFew (T.charges self.old.tariff.now) (and_act (T.charges self.old.tariff.now) source.charge (act_of action.now)) → swept result (take self.new.sizes.used self.new.rows.now) ≡ relaxed (problem b (T.charges self.old.tariff.now) (posed start self.old.limits.now)) source.row source.setting source.charge (take self.old.sizes.used self.old.rows.now) number }
        ensures grew { Grew self.old.limits.now.capacity 0 self.old.sizes self.new.sizes }
        ensures rest { drop self.new.sizes.used self.new.rows.now ≡ drop self.new.sizes.used self.old.rows.now }
        ensures lined { Lined (T.charges self.old.tariff.now).le (take self.old.sizes.used self.old.rows.now) self.old.sizes.waiting self.old.table.now → Lined (T.charges self.old.tariff.now).le (take self.new.sizes.used self.new.rows.now) self.new.sizes.waiting self.new.table.now }
        ensures kept { SameTable self.old.rows self.new.rows × SameTable self.old.table self.new.table × (self.new.tariff ≡ self.old.tariff) × (self.new.limits ≡ self.old.limits) }
    {
        let Some(charge) = self.tariff.add(source.charge, action, self.limits.bound) else {
            return Ok(());
        };
        let setting = successor(action, source.setting);
        self.place_row(Row {
            setting,
            charge,
            closed: false,
            origin: source.row,
            action: number,
        })
    }

    // Takes the first row from the queue, and closes it.
    pub(crate) fn close_first(&mut self, row: u16)
        requires { (0 < self.old.sizes.waiting) × (row < self.old.sizes.used) }
        ensures rows { (d : Row T.Charge) → self.new.rows.now ≡ slice_set self.old.rows.now row (shut (slice_index_or self.old.rows.now row d)) }
        ensures lined { Lined (T.charges self.old.tariff.now).le (take self.old.sizes.used self.old.rows.now) self.old.sizes.waiting self.old.table.now → least (T.charges self.old.tariff.now).zero (T.charges self.old.tariff.now).le (take self.old.sizes.used self.old.rows.now) ≡ Some row → Lined (T.charges self.old.tariff.now).le (take self.new.sizes.used self.new.rows.now) self.new.sizes.waiting self.new.table.now }
        ensures kept { SameTable self.old.rows self.new.rows × SameTable self.old.table self.new.table × (self.new.tariff ≡ self.old.tariff) × (self.new.limits ≡ self.old.limits) }
        ensures used { self.new.sizes.used ≡ self.old.sizes.used }
        ensures waiting { self.new.sizes.waiting + 1 ≡ self.old.sizes.waiting }
    {
        let table = &mut *self.table;
        let mut queue = Queue {
            tariff: self.tariff,
            table,
            count: self.sizes.waiting,
        };
        queue.pop();
        let count = queue.count;
        self.sizes.waiting = count;
        self.expanded += 1;
        self.rows[row as usize].closed = true;
    }

    // The row that is first in the queue, if one waits.
    pub(crate) fn first_row(&self) -> Option<Source<T::Charge>>
        ensures none { result ≡ None → self.now.sizes.waiting ≡ 0 }
        ensures some { IfSome result (FirstIn self.now.rows.now self.now.table.now self.now.sizes) }
    {
        if self.sizes.waiting == 0 {
            return None;
        }
        let first = waiting_at(self.table, 0);
        let row = within(first.row, self.sizes.used);
        let held = self.rows[row as usize];
        let setting = held.setting;
        Some(Source {
            row,
            setting,
            charge: held.charge,
        })
    }
}
