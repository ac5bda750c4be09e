// Pruning rules: which actions a search needs to try in a setting.
#![tactic(auto)]

ghost use Rattle.std.specs.Prelude.{length, Decides};
ghost use Rattle.task.specs.Benches.{bench_of};
ghost use Rattle.rules.specs.Marks.{Marking, Marked, Zeros, Asked};
ghost use Rattle.rules.specs.Rules.{all_marking, stubborn_marking, Sized, Prunes};
ghost use Rattle.rules.specs.Sets.{stubborn};

use line::Queue;
use task::{Action, Setting, Task, achieves, first_unmet};
use waiting::{Collection, Pending};

mod line;
mod waiting;

// A pruning rule: which actions a search needs to try in a setting.
pub trait Rule {
    // The marked actions of each bench and setting, and that pruning to them loses no plan.
    ghost marking: { Self → Marking };

    // Sets a byte for each action, 1 where it is marked and 0 elsewhere, over whatever marks and work held.
    // The work bytes are zero afterwards.
    fn mark(
        &self,
        task: &Task,
        actions: &[Action],
        setting: Setting,
        marks: &mut [u8],
        work: &mut [u8],
    )
        ensures marked { Asked task.now actions.now setting marks.old work.old → Marked ((marking self.now).marks (bench_of task.now actions.now) setting) marks.new }
        ensures cleared { Zeros work.new };
}

// The marked set of Atoms and Actions is the smallest closed one, and pruning to it loses no plan. The number
// says nothing: what is asked for is the clause.
pub fn pruning_stands() -> u8
    ensures { Prunes }
{
    0
}

// Are the tables as long as the task asks?
fn sized(task: &Task, actions: &[Action], marks: usize, work: usize) -> bool
    ensures { Decides result (Sized task.now actions.now marks work) }
{
    marks == task.actions && task.actions <= actions.len() && work == 4096
}

// Marks every action.
#[derive(Clone, Copy)]
pub struct All;

impl Rule for All {
    ghost marking = { λ _. all_marking };

    // One pass over the marks and one over the work bytes.
    fn mark(
        &self,
        _task: &Task,
        _actions: &[Action],
        _setting: Setting,
        marks: &mut [u8],
        work: &mut [u8],
    ) {
        work.fill(0);
        marks.fill(1);
    }
}

// Marks the smallest closed set, over no marks.
fn close_by_actions(
    task: &Task,
    actions: &[Action],
    setting: Setting,
    marks: &mut [u8],
    work: &mut [u8],
)
    requires { Sized task.now actions.now (length marks.old) (length work.old) × Zeros marks.old }
    ensures { Marked (stubborn (bench_of task.now actions.now) setting) marks.new }
{
    if let Some(goal) = first_unmet(setting, task.goal.list()) {
        let mut queue = Queue::none(&actions[..task.actions], marks, work);
        queue.join_where(|action| achieves(action, goal));
        queue.spread(setting);
    }
}

// Marks the smallest closed set action by action: each action that is marked stands in line, and in its
// turn marks the actions that it calls for.
//
// Marks and work bytes are each cleared in one pass. Then each member is compared once with every action,
// so that a call costs as many tests of two actions as there are members times actions. The line is never
// searched.
#[derive(Clone, Copy)]
pub struct Actions;

impl Rule for Actions {
    ghost marking = { λ _. stubborn_marking };

    fn mark(
        &self,
        task: &Task,
        actions: &[Action],
        setting: Setting,
        marks: &mut [u8],
        work: &mut [u8],
    ) {
        work.fill(0);
        marks.fill(0);
        if sized(task, actions, marks.len(), work.len()) {
            close_by_actions(task, actions, setting, marks, work);
        }
        work.fill(0);
    }
}

// Marks the smallest closed set by the atoms through which a member calls for actions: they wait in the
// work bytes, and a pass over the actions marks the achievers and dependers of all that wait.
//
// Marks and work bytes are each cleared in one pass. A newly marked action lets the siblings of its
// conditions and effects wait, or its first unmet condition. Every pass but the last marks an action, and
// looks up a byte for each condition and effect of the actions that are not marked yet. So a call costs at
// most as many passes as there are members, and one more; no two actions are ever compared, and no work
// byte is visited but those of the atoms that come up.
#[derive(Clone, Copy)]
pub struct Atoms;

impl Rule for Atoms {
    ghost marking = { λ _. stubborn_marking };

    fn mark(
        &self,
        task: &Task,
        actions: &[Action],
        setting: Setting,
        marks: &mut [u8],
        work: &mut [u8],
    ) {
        marks.fill(0);
        let room = work.len();
        let mut pending = Pending::none(work, setting, task.sizes);
        if !sized(task, actions, marks.len(), room) {
            return;
        }
        if let Some(goal) = first_unmet(setting, task.goal.list()) {
            pending.ask(Collection::Achievers, goal);
            pending.sweep(&actions[..task.actions], marks);
        }
    }
}
