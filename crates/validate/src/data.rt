// What a walk is, and what it says.
ghost use Rattle.std.specs.Prelude.{◌≡◌, ◌≤◌, length};

use std::alloc::AllocError;
use tariff::{Pressed, Presses, Tariff, Time};
use task::{Action, Atom, Refusal, Setting, Task};

// A task with the table that its actions lie in.
#[derive(Clone, Copy)]
pub struct Bench<'a> {
    pub task: &'a Task,
    pub actions: &'a [Action],
    ghost enough: { task.now.actions ≤ length actions.now },
}

// What some actions cost, by Time and by Presses.
#[derive(Clone, Copy)]
pub struct Costs {
    pub time: u64,
    pub presses: Pressed,
}

// Where a walk stands: before which action, from 1, in which setting, and what it has cost.
#[derive(Clone, Copy)]
pub struct Standing {
    pub step: usize,
    pub setting: Setting,
    pub costs: Costs,
}

// A line of what is said.
#[derive(Clone, Copy)]
pub enum Line {
    // The book, or the start, is refused.
    Refused(Refusal),
    // The field of the line, both from 1, is no number of up to nine digits.
    NotANumber {
        line: usize,
        field: usize,
    },
    // The start has so many values, and the bench so many variables.
    WrongCount {
        given: usize,
        wanted: usize,
    },
    // There are over 65,536 actions.
    TooMany,
    // The action is done; the costs are those of the walk so far.
    Done {
        number: u32,
        action: Action,
        costs: Costs,
    },
    // The number names no action.
    NoAction {
        step: usize,
        number: u32,
    },
    // The action's condition does not hold.
    NotApplicable {
        step: usize,
        number: u32,
        condition: Atom,
    },
    // All actions are done: whether the goal holds, and what the walk costs.
    End {
        goal: bool,
        costs: Costs,
    },
}

// Why no walk is begun: the one line that is said, or want of memory.
#[derive(Clone, Copy)]
pub enum Unwalked {
    Because(Line),
    Memory(AllocError),
}
