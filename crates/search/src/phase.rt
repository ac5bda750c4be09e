// The phases of a planner, the tables that are lent to it, and its answers.
ghost use Rattle.std.specs.Prelude.{◌≡◌, ◌+◌, ◌≤◌};

use crate::data::Row;
use crate::entry::Entry;
use crate::sizes::{Limits, Sizes};
use task::{Refusal, Task};

// The tables beside the actions, lent for one call.
#[derive(Drop)]
pub struct Tables<'r, 'q, 'p, 'm, 'w, C> {
    pub rows: &'r mut [Row<C>],
    pub queue: &'q mut [Entry<C>],
    pub plan: &'p mut [u16],
    pub marks: &'m mut [u8],
    pub work: &'w mut [u8],
}

// A planner at rest.
pub struct Rest {
    pub(crate) task: Task,
}

// What a search is asked: a plan of the task from the start, within the limits.
pub struct Asked<C> {
    pub(crate) task: Task,
    pub(crate) start: [u8; 64],
    pub(crate) limits: Limits<C>,
    ghost few: { limits.capacity ≤ 65535 },
}

// A planner that searches: what it was asked, how many rows are used and wait, and how many were expanded.
pub struct Search<C> {
    pub(crate) asked: Asked<C>,
    pub(crate) sizes: Sizes,
    pub(crate) expanded: usize,
    ghost numbers: { (sizes.used ≤ asked.limits.capacity) × (sizes.waiting ≤ sizes.used) × (expanded + sizes.waiting ≡ sizes.used) },
}

// How a search ended: with a plan and its charge, with no plan, with no row left. No Result: none of the
// three is an error.
#[derive(Clone, Copy)]
pub enum Ending<C> {
    Found(C),
    NoPlan,
    Full,
}

// A planner whose search ended: what it was asked, how many rows were expanded, how it ended, how many
// actions the plan has, and how many of them were taken.
pub struct Ended<C> {
    pub(crate) asked: Asked<C>,
    pub(crate) expanded: usize,
    pub(crate) ending: Ending<C>,
    pub(crate) planned: usize,
    pub(crate) taken: usize,
    ghost few: { planned ≤ asked.limits.capacity },
}

// What an Advance came to, with the number of settings expanded so far, and a plan's charge. No Result: none
// of the four is an error.
pub enum Advanced<C> {
    Working(Search<C>, usize),
    Found(Ended<C>, C, usize),
    NoPlan(Ended<C>, usize),
    Full(Ended<C>, usize),
}

// The next action of the plan, and the charge of what remains after it.
pub struct Taken<C> {
    pub ended: Ended<C>,
    pub action: u16,
    pub remaining: C,
}

// The phase as it was, and why the call was refused.
pub struct Refused<P> {
    pub phase: P,
    pub refusal: Refusal,
}
