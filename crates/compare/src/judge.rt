// Compares what the session and the rules answer with what the exhaustive search and the plain closure say.
use crate::chance::Chance;
use crate::made::{Made, setting};
use crate::plain::{Cost, Costs, Prices, STEPS, Small, Values, cheapest, closure, within};
use crate::runs::{Billed, End, Failure, Planner, Went};
use rules::Rule;

// Is the list a plan from the task's start at this cost, and was each remainder the cost of what followed?
fn is_plan<P: Prices>(small: &Small, prices: &P, plan: &[Went], cost: Cost) -> bool {
    let mut values = small.start;
    let mut left = cost;
    let mut sum = Cost::default();
    for went in plan {
        let Some(step) = small.steps.get(went.action) else {
            return false;
        };
        if !step.conditions.met(values) {
            return false;
        }
        let next = step.after(values);
        values = next;
        let own = prices.price(step);
        sum = sum.plus(own);
        if went.remaining.plus(own) != left {
            return false;
        }
        left = went.remaining;
    }
    small.goal.met(values) && sum == cost && left == Cost::default()
}

// Did the planner's search end as it must?
pub(crate) fn ended_rightly<B: Billed>(
    small: &Small,
    planner: &Planner<B>,
    costs: &Costs,
    bound: Cost,
    places: usize,
    ended: &Result<End, Failure>,
) -> bool {
    let best = cheapest(small, costs).filter(|cost| *cost <= bound);
    match ended {
        Ok(End::Found(cost)) => {
            let walked = is_plan(small, &planner.tariff, &planner.went, *cost);
            best == Some(*cost) && walked
        }
        Ok(End::NoPlan) => best.is_none(),
        Ok(End::Full) => within(costs, bound) > places,
        Err(_) => false,
    }
}

// Does the rule mark these actions, whatever marks and work held, and leave the work bytes zero?
pub(crate) fn marks_so<R: Rule>(
    rule: &R,
    small: &Small,
    made: &Made,
    values: Values,
    chance: &mut Chance,
) -> bool {
    let expected = closure(small, values);
    let dirt = chance.below(3) as u8;
    let mut places = [dirt; STEPS];
    let marks = &mut places[..small.steps.len()];
    let mut work = [dirt; 4096];
    rule.mark(&made.task, &made.table, setting(values), marks, &mut work);
    let marked = marks
        .iter()
        .zip(&expected)
        .all(|(mark, called)| *mark == u8::from(*called));
    marked && work.iter().all(|byte| *byte == 0)
}
