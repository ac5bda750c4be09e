// What some steps come to.
ghost use Rattle.std.specs.Prelude.{◌≡◌, ℕ, ◌+◌, ◌≤◌, List, length, take};
ghost use Rattle.search.specs.Rows.{row};
ghost use Rattle.search.specs.Conclusions.{EndsSo, Concluded};

use crate::data::Row;
use crate::phase::{Advanced, Asked, Ended, Ending, Search};
use crate::plan::write_plan;
use crate::sizes::{Progress, Ran};
use tariff::Tariff;

// The charge of a row; past the last row, zero.
fn charge_at<T: Tariff>(tariff: &T, rows: &[Row<T::Charge>], at: usize) -> T::Charge
    ensures { result ≡ (row (T.charges tariff.now).zero (T.charges tariff.now).le rows.now at).charge }
{
    rows.get(at).map_or(tariff.zero(), |row| row.charge)
}

// The search ended, and no action was taken yet.
fn end<C: Copy>(asked: Asked<C>, expanded: usize, ending: Ending<C>, planned: usize) -> Ended<C>
    requires { planned ≤ asked.limits.capacity }
    ensures { (list : List ℕ) → planned ≡ length list → EndsSo asked expanded ending list result }
{
    Ended {
        asked,
        expanded,
        ending,
        planned,
        taken: 0,
    }
}

// The search goes on, or it ended; a plan that was found is written to the plan list.
pub(crate) fn conclude<T: Tariff>(
    tariff: &T,
    asked: Asked<T::Charge>,
    rows: &[Row<T::Charge>],
    plan: &mut [u16],
    ran: Ran,
) -> Advanced<T::Charge>
    requires numbers { (ran.sizes.used ≤ asked.limits.capacity) × (ran.sizes.waiting ≤ ran.sizes.used) × (ran.expanded + ran.sizes.waiting ≡ ran.sizes.used) }
    requires room { (ran.sizes.used ≤ length rows.now) × (asked.limits.capacity ≤ length plan.old) }
    ensures { Concluded (T.charges tariff.now).zero (T.charges tariff.now).le asked ran (take ran.sizes.used rows.now) plan.old plan.new result }
{
    let sizes = ran.sizes;
    let expanded = ran.expanded;
    match ran.progress {
        Progress::Going => {
            let search = Search {
                asked,
                sizes,
                expanded,
            };
            Advanced::Working(search, expanded)
        }
        Progress::AtGoal(row) => {
            let goal = row as usize;
            let rows = &rows[..sizes.used];
            let charge = charge_at(tariff, rows, goal);
            let planned = write_plan(rows, goal, plan);
            let ended = end(asked, expanded, Ending::Found(charge), planned);
            Advanced::Found(ended, charge, expanded)
        }
        Progress::Exhausted => {
            let ended = end(asked, expanded, Ending::NoPlan, 0);
            Advanced::NoPlan(ended, expanded)
        }
        Progress::Crowded => {
            let ended = end(asked, expanded, Ending::Full, 0);
            Advanced::Full(ended, expanded)
        }
    }
}
