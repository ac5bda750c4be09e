// A planner whose search ended: it allows Take and Abandon. Each call is defined and ends whatever the tables
// hold.
ghost use Rattle.std.specs.Prelude.{◌≡◌, ℕ, ◌+◌, List, map, length, take, slice_index};
ghost use Rattle.std.specs.List.{between};
ghost use Rattle.task.specs.Benches.{Bench, Lawful, act_of};
ghost use Rattle.tariff.specs.Charges.{Charges};
ghost use Rattle.search.specs.Session.{Call, taking, take_fault};
ghost use Rattle.search.specs.Left.{lengths, OfTask, ActionsLent, LeftEnded, CanTake, Took, Abandoned, refusal_of, GivenBack, IfDone, end_of, Next, sum_or_most};

use crate::checks::check_take;
use crate::phase::{Ended, Ending, Refused, Rest, Taken};
use tariff::{Tariff, total};
use task::Action;

impl<C: Copy> Ended<C> {
    // How the search ended.
    pub fn ending(&self) -> Ending<C>
        ensures { result ≡ self.now.ending }
    {
        self.ending
    }

    // Gives up what remains of the plan.
    pub fn abandon(self) -> Rest
        ensures task { result.task ≡ self.asked.task }
        ensures promised { (b : Bench) (K : Charges C) (calls : List (Call C)) (plan : List ℕ) → Lawful b → LeftEnded b K calls self plan → Abandoned b K calls result }
    {
        let Ended {
            asked,
            expanded: _,
            ending: _,
            planned: _,
            taken: _,
        } = self;
        asked.give_up()
    }
}

// What the named actions cost together; where they are no actions, the greatest charge.
fn charge_or_most<T: Tariff>(tariff: &T, actions: &[Action], numbers: &[u16]) -> T::Charge
    ensures { result ≡ sum_or_most (T.charges tariff.now) (map act_of actions.now) numbers.now }
{
    let most = tariff.most();
    total(tariff, actions, numbers, most).unwrap_or(most)
}

// The next action of the plan list, and what those after it cost, up to the plan's end.
fn next_action<T: Tariff>(
    tariff: &T,
    actions: &[Action],
    plan: &[u16],
    ended: &Ended<T::Charge>,
) -> (u16, T::Charge)
    requires { CanTake ended.now (length actions.now) (length plan.now) }
    ensures action { result.0 ≡ slice_index plan.now ended.now.taken }
    ensures remaining { result.1 ≡ sum_or_most (T.charges tariff.now) (map act_of (take ended.now.asked.task.actions actions.now)) (between (ended.now.taken + 1) ended.now.planned plan.now) }
{
    let count = ended.asked.task.actions;
    let first = ended.taken + 1;
    let remaining = charge_or_most(tariff, &actions[..count], &plan[first..ended.planned]);
    (plan[ended.taken], remaining)
}

// Takes the next action of the plan, and answers what the rest of it costs.
pub fn take<T: Tariff>(
    tariff: &T,
    actions: &[Action],
    plan: &[u16],
    mut ended: Ended<T::Charge>,
) -> Result<Taken<T::Charge>, Refused<Ended<T::Charge>>>
    ensures promised { (b : Bench) (calls : List (Call T.Charge)) (rows queue marks work : ℕ) → Lawful b → ActionsLent ended.asked.task b actions.now → LeftEnded b (T.charges tariff.now) calls ended plan.now → Took b (T.charges tariff.now) calls (taking (lengths (length actions.now) rows queue (length plan.now) marks work)) result plan.now }
    ensures refused { (b : Bench) (list : List ℕ) (rows queue marks work : ℕ) → OfTask ended.asked.task b → length list ≡ ended.planned → refusal_of result ≡ take_fault b ended.asked.limits.capacity (end_of ended.ending list ended.taken) (lengths (length actions.now) rows queue (length plan.now) marks work) }
    ensures stays { GivenBack ended (Unit {0}) result }
    ensures next { IfDone (Next (T.charges tariff.now) ended actions.now plan.now) result }
{
    // Without `?`: a refusal takes the phase with it, and what is not refused keeps it.
    if let Err(refusal) = check_take(&ended, actions.len(), plan.len()) {
        return Err(Refused {
            phase: ended,
            refusal,
        });
    }
    let (action, remaining) = next_action(tariff, actions, plan, &ended);
    ended.taken += 1;
    Ok(Taken {
        ended,
        action,
        remaining,
    })
}
