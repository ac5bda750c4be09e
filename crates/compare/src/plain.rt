// A small task in plain numbers, and an exhaustive search of it: each setting's least cost, relaxed to a fixed
// point over all settings that can be reached. Nothing of the planner is used here.
ghost use Rattle.std.specs.Prelude.{◌<◌};

use arrayvec::ArrayVec;

// A value for each of four variables.
pub(crate) type Values = [u8; 4];

// No task has more steps.
pub(crate) const STEPS: usize = 8;

// Four variables of up to four values.
pub(crate) const SETTINGS: usize = 256;

// Values for some of the four variables: the conditions or the effects of a step, or a goal.
#[derive(Clone, Copy, Default)]
pub(crate) struct Partial {
    pub(crate) values: [Option<u8>; 4],
}

impl Partial {
    // The lowest variable whose value is asked for and is not there.
    fn missing(&self, values: Values) -> Option<usize> {
        let mut both = self.values.iter().zip(&values);
        both.position(|(asked, value)| asked.is_some_and(|asked| asked != *value))
    }

    // Is each value there that is asked for?
    pub(crate) fn met(&self, values: Values) -> bool {
        self.missing(values).is_none()
    }

    // The value of the variable, if there is one.
    fn at(&self, variable: usize) -> Option<u8> {
        self.values.get(variable).copied().flatten()
    }

    // Do the two ask for different values of a variable?
    fn differs(&self, other: &Partial) -> bool {
        let mut both = self.values.iter().zip(&other.values);
        both.any(|(left, right)| left.is_some() && right.is_some() && left != right)
    }
}

#[derive(Clone, Copy, Default)]
pub(crate) struct Step {
    pub(crate) conditions: Partial,
    pub(crate) effects: Partial,
    pub(crate) tenths: u32,
    pub(crate) presses: u16,
}

impl Step {
    // The values after the step.
    pub(crate) fn after(&self, values: Values) -> Values {
        let mut next = values;
        for (value, effect) in next.iter_mut().zip(&self.effects.values) {
            *value = effect.unwrap_or(*value);
        }
        next
    }
}

// A task of these steps. The spare steps are none of the task's: they lie behind its own in the planner's table.
#[derive(Drop)]
pub(crate) struct Small {
    pub(crate) sizes: Values,
    pub(crate) steps: ArrayVec<Step, STEPS>,
    pub(crate) spare: ArrayVec<Step, STEPS>,
    pub(crate) goal: Partial,
    pub(crate) start: Values,
}

// What is charged first, and what among equals.
#[derive(Clone, Copy, PartialEq, Eq, PartialOrd, Ord, Default)]
pub(crate) struct Cost {
    pub(crate) first: u64,
    pub(crate) second: u64,
}

impl Cost {
    pub(crate) fn plus(self, other: Cost) -> Cost {
        Cost {
            first: self.first.saturating_add(other.first),
            second: self.second.saturating_add(other.second),
        }
    }
}

// What each step costs.
pub(crate) trait Prices {
    fn price(&self, step: &Step) -> Cost;
}

// The least cost known of each setting, where a way to it is known.
pub(crate) type Costs = [Option<Cost>; SETTINGS];

fn place_of(values: Values) -> usize
    ensures { result < 256 }
{
    let [a, b, c, d] = values.map(|value| (value % 4) as usize);
    64 * a + 16 * b + 4 * c + d
}

fn values_at(place: usize) -> Values {
    [
        (place / 64 % 4) as u8,
        (place / 16 % 4) as u8,
        (place / 4 % 4) as u8,
        (place % 4) as u8,
    ]
}

// Notes a way to a setting, if none is known or none so cheap.
fn note(costs: &mut Costs, values: Values, cost: Cost) {
    let place = place_of(values);
    if costs[place].is_none_or(|known| cost < known) {
        costs[place] = Some(cost);
    }
}

// Takes each step from a setting of this cost.
fn relax<P: Prices>(costs: &mut Costs, small: &Small, prices: &P, values: Values, cost: Cost) {
    for step in &small.steps {
        if step.conditions.met(values) {
            note(costs, step.after(values), cost.plus(prices.price(step)));
        }
    }
}

// The least cost of each setting that the start leads to: rounds of every step from every setting reached, until
// one changes nothing.
pub(crate) fn exhaust<P: Prices>(small: &Small, prices: &P) -> Costs {
    let mut costs = [None; SETTINGS];
    note(&mut costs, small.start, Cost::default());
    for _ in 0..SETTINGS {
        let before = costs;
        for (place, known) in before.iter().enumerate() {
            if let Some(cost) = *known {
                relax(&mut costs, small, prices, values_at(place), cost);
            }
        }
        if costs == before {
            break;
        }
    }
    costs
}

// The least cost of a goal setting.
pub(crate) fn cheapest(small: &Small, costs: &Costs) -> Option<Cost> {
    costs
        .iter()
        .enumerate()
        .filter(|(place, _)| small.goal.met(values_at(*place)))
        .filter_map(|(_, cost)| *cost)
        .min()
}

// How many settings are reached at no more than a cost.
pub(crate) fn within(costs: &Costs, bound: Cost) -> usize {
    costs
        .iter()
        .filter(|cost| cost.is_some_and(|cost| cost <= bound))
        .count()
}

// Does a member of the pruned set call for the other step?
fn calls(member: &Step, other: &Step, values: Values) -> bool {
    if let Some(v) = member.conditions.missing(values) {
        return other.effects.at(v) == member.conditions.at(v);
    }
    other.effects.differs(&member.conditions)
        || other.effects.differs(&member.effects)
        || member.effects.differs(&other.conditions)
}

// The members, and each step that a member calls for.
fn grown(steps: &[Step], members: [bool; STEPS], values: Values) -> [bool; STEPS] {
    let mut next = members;
    for (is_in, other) in next.iter_mut().zip(steps) {
        let mut all = steps.iter().zip(&members);
        if all.any(|(member, called)| *called && calls(member, other, values)) {
            *is_in = true;
        }
    }
    next
}

// The smallest closed set in a setting: as many rounds of adding what the members call for as there are steps. No
// place past the last step is marked.
pub(crate) fn closure(small: &Small, values: Values) -> [bool; STEPS] {
    let unmet = small.goal.missing(values);
    let mut members = [false; STEPS];
    for (is_in, step) in members.iter_mut().zip(&small.steps) {
        *is_in = unmet.is_some_and(|v| step.effects.at(v) == small.goal.at(v));
    }
    for _ in &small.steps {
        members = grown(&small.steps, members, values);
    }
    members
}
