// A planner that searches: it allows Advance and Abandon. Each call is defined and ends whatever the tables
// hold.
ghost use Rattle.std.specs.Prelude.{◌≡◌, List, length};
ghost use Rattle.task.specs.Benches.{Bench, Lawful};
ghost use Rattle.tariff.specs.Charges.{Charges};
ghost use Rattle.search.specs.Session.{Call, advancing, advance_fault};
ghost use Rattle.search.specs.Left.{Contents, lent, on_entry, on_exit, Untouched, OfTask, ActionsLent, LeftSearch, Went, Stepped, Kept, Abandoned, refusal_of, GivenBack, IfDone};

use crate::checks::check_advance;
use crate::conclude::conclude;
use crate::phase::{Advanced, Refused, Rest, Search, Tables};
use crate::steps::run;
use rules::Rule;
use tariff::Tariff;
use task::Action;

impl<C: Copy> Search<C> {
    // Gives up the search.
    pub fn abandon(self) -> Rest
        ensures task { result.task ≡ self.asked.task }
        ensures promised { (b : Bench) (K : Charges C) (calls : List (Call C)) (t : Contents C) → Lawful b → LeftSearch b K calls self t → Abandoned b K calls result }
    {
        let Search {
            asked,
            sizes: _,
            expanded: _,
        } = self;
        asked.give_up()
    }
}

// Goes on with the search for up to so many steps; answers how it stands.
pub fn advance<T: Tariff, R: Rule>(
    tariff: &T,
    rule: &R,
    actions: &[Action],
    search: Search<T::Charge>,
    tables: Tables<T::Charge>,
    steps: usize,
) -> Result<Advanced<T::Charge>, Refused<Search<T::Charge>>>
    ensures promised { (b : Bench) (calls : List (Call T.Charge)) → Lawful b → ActionsLent search.asked.task b actions.now → LeftSearch b (T.charges tariff.now) calls search (on_entry tables.entry) → Went b (T.charges tariff.now) calls (advancing steps (R.marking rule.now) (lent (length actions.now) tables.entry)) result (on_exit tables.exit) }
    ensures tables { (b : Bench) (calls : List (Call T.Charge)) → Lawful b → ActionsLent search.asked.task b actions.now → (left : LeftSearch b (T.charges tariff.now) calls search (on_entry tables.entry)) → IfDone (λ _. Stepped b (T.charges tariff.now) search (R.marking rule.now) steps left.held (on_entry tables.entry) (on_exit tables.exit)) result }
    ensures refused { (b : Bench) → OfTask search.asked.task b → refusal_of result ≡ advance_fault b search.asked.limits.capacity (lent (length actions.now) tables.entry) }
    ensures stays { GivenBack search (Untouched (on_entry tables.entry) (on_exit tables.exit)) result }
    ensures kept { IfDone (λ _. Kept search (on_entry tables.entry) (on_exit tables.exit)) result }
{
    // Without `?`: a refusal takes the phase with it, and what is not refused keeps it.
    if let Err(refusal) = check_advance(&search.asked, actions.len(), tables.lengths()) {
        return Err(Refused {
            phase: search,
            refusal,
        });
    }
    let Tables {
        rows,
        queue,
        plan,
        marks,
        work,
    } = tables;
    // The queue as far as the rows go: an entry of a foreign table may name any row, and its place is noted.
    let capacity = search.asked.limits.capacity;
    let ran = run(
        tariff,
        rule,
        &search,
        actions,
        rows,
        &mut queue[..capacity],
        marks,
        work,
        steps,
    );
    let Search {
        asked,
        sizes: _,
        expanded: _,
    } = search;
    Ok(conclude(tariff, asked, rows, plan, ran))
}
