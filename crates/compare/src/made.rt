// Small tasks of many shapes, and the same as the planner's data.
use crate::chance::Chance;
use crate::plain::{Partial, STEPS, Small, Step, Values};
use arrayvec::ArrayVec;
use task::{Action, Atom, Atoms, Setting, Task};

// What a made task is like: an atom stands in one of so many places, and charges lie below a number.
#[derive(Clone, Copy)]
struct Shape {
    conditions: u32,
    effects: u32,
    goals: u32,
    tenths: u32,
    presses: u32,
}

fn some_shape(chance: &mut Chance) -> Shape {
    let ranges = [1, 2, 10, 1000];
    let tenths = ranges[chance.below(4) as usize];
    let presses = ranges[chance.below(4) as usize];
    Shape {
        conditions: 1 + chance.below(5),
        effects: 1 + chance.below(4),
        goals: 1 + chance.below(3),
        tenths,
        presses,
    }
}

// A value of the variable, or 0.
fn some_value(chance: &mut Chance, size: u8) -> u8 {
    (chance.below(u32::from(size)) & 3) as u8
}

// A value of each variable.
pub(crate) fn some_values(chance: &mut Chance, sizes: Values) -> Values {
    sizes.map(|size| some_value(chance, size))
}

// A value for each variable, once in so many times.
fn some_partial(chance: &mut Chance, sizes: Values, once: u32) -> Partial {
    let mut values = [None; 4];
    for (value, size) in values.iter_mut().zip(&sizes) {
        if chance.once_in(once) {
            *value = Some(some_value(chance, *size));
        }
    }
    Partial { values }
}

// No effect repeats a condition, and at least one is there, where a variable has two values.
fn some_effects(chance: &mut Chance, sizes: Values, conditions: Partial, once: u32) -> Partial {
    let mut effects = some_partial(chance, sizes, once);
    for (effect, condition) in effects.values.iter_mut().zip(&conditions.values) {
        if *effect == *condition {
            *effect = None;
        }
    }
    if effects.values.iter().all(|effect| effect.is_none()) {
        let other = if conditions.values[0] == Some(0) {
            1
        } else {
            0
        };
        effects.values[0] = Some(other);
    }
    effects
}

fn some_step(chance: &mut Chance, sizes: Values, shape: Shape) -> Step {
    let conditions = some_partial(chance, sizes, shape.conditions);
    let effects = some_effects(chance, sizes, conditions, shape.effects);
    let tenths = chance.below(shape.tenths);
    let presses = (chance.below(shape.presses) & 1023) as u16;
    Step {
        conditions,
        effects,
        tenths,
        presses,
    }
}

fn some_sizes(chance: &mut Chance) -> Values {
    let mut sizes = [2; 4];
    for size in sizes.iter_mut() {
        *size = (1 + chance.below(4)) as u8;
    }
    sizes[0] = sizes[0].max(2);
    sizes
}

// These steps as a list.
fn list_of(steps: &[Step]) -> ArrayVec<Step, STEPS> {
    let mut list = ArrayVec::new();
    // They fit: no more than STEPS are drawn.
    let _fits = list.try_extend_from_slice(steps);
    list
}

// A task of up to eight actions; its first variable has at least two values.
pub(crate) fn some_task(chance: &mut Chance) -> Small {
    let shape = some_shape(chance);
    let sizes = some_sizes(chance);
    let start = some_values(chance, sizes);
    let goal = some_partial(chance, sizes, shape.goals);
    // A step that is drawn and left: without it every later draw, and so every task, would be another.
    some_step(chance, sizes, shape);
    let mut drawn = [Step::default(); STEPS];
    for step in drawn.iter_mut() {
        *step = some_step(chance, sizes, shape);
    }
    let count = chance.below(STEPS as u32 + 1) as usize;
    let (steps, spare) = drawn.split_at(count.min(STEPS));
    Small {
        sizes,
        steps: list_of(steps),
        spare: list_of(spare),
        goal,
        start,
    }
}

// The planner's task and its table of actions.
#[derive(Clone, Copy)]
pub(crate) struct Made {
    pub(crate) task: Task,
    pub(crate) table: [Action; STEPS],
}

fn atoms<const N: usize>(partial: Partial) -> Atoms<N> {
    let mut list = Atoms::none();
    for (variable, value) in (0..4).zip(&partial.values) {
        if let Some(value) = *value {
            list.push(Atom { variable, value });
        }
    }
    list
}

fn action(step: &Step) -> Action {
    Action {
        tenths: step.tenths.min(1_000_000),
        presses: step.presses.min(1000),
        conditions: atoms(step.conditions),
        effects: atoms(step.effects),
    }
}

// The values, and 0 past the fourth variable.
pub(crate) fn setting(values: Values) -> Setting {
    let mut all = [0; 64];
    all[0..4].copy_from_slice(&values);
    all
}

pub(crate) fn task_of(small: &Small) -> Made {
    let mut table = [Action::default(); STEPS];
    let steps = small.steps.iter().chain(&small.spare);
    for (place, step) in table.iter_mut().zip(steps) {
        *place = action(step);
    }
    let task = Task {
        variables: 4,
        sizes: setting(small.sizes),
        actions: small.steps.len().min(STEPS),
        goal: atoms(small.goal),
    };
    Made { task, table }
}
