// Reads a bench book into a task and a lent table of actions, and writes it again.
#![tactic(auto)]

ghost use Rattle.std.specs.Prelude.{◌≡◌, ◌+◌, ◌≤◌, ◌++◌, map, length, take, drop, IfOk, Some, None, Ok};
ghost use Rattle.task.specs.Settings.{listed};
ghost use Rattle.task.specs.Benches.{Bench, Lawful, act_of, bench_of};
ghost use Rattle.book.specs.Atoms.{atoms_in};
ghost use Rattle.book.specs.Records.{act_spelled, shown, offset};
ghost use Rattle.book.specs.Format.{stage_after, or_fault, atoms_fault, repeating, act_fault, variable_fault, crowding, fault_in, grown, admitted, reading, after_record, parse, parse_into};
ghost use Rattle.book.specs.Print.{print};
ghost use Rattle.book.specs.Reader.{Seeing, Agree, Outline, acts_in, Limited, LimitedAct, Filled, Fits, Holds, Kept};

use task::{Action, Atoms, Fault, Refusal, Task};

mod atoms;
mod records;
mod writer;

use atoms::AtomsIn;
use records::{Kind, Raw, Record, Records, SpelledAction};
pub use writer::write;

// What may stand next: the first variable; a variable, an action or the goal; an action or the goal;
// nothing.
#[derive(Clone, Copy, PartialEq, Eq, Debug, Default)]
enum Stage {
    #[default]
    Variables,
    Actions,
    Goal,
    Done,
}

// What the records so far have said, but for the actions themselves.
#[derive(Clone, Copy, PartialEq, Eq, Debug)]
struct Seen {
    stage: Stage,
    task: Task,
}

// The stage after a record of the kind, where one may stand.
fn follow(stage: Stage, kind: Kind) -> Option<Stage>
    ensures { result ≡ stage_after stage kind }
{
    match (stage, kind) {
        (Stage::Variables | Stage::Actions, Kind::Variable) => Some(Stage::Actions),
        (Stage::Actions | Stage::Goal, Kind::Action) => Some(Stage::Goal),
        (Stage::Actions | Stage::Goal, Kind::Goal) => Some(Stage::Done),
        _ => None,
    }
}

// Atoms are of the bench, and their variables rise.
fn check_atoms(atoms: AtomsIn<'_>, sizes: &[u8]) -> Result<(), Fault>
    ensures { result ≡ or_fault (atoms_fault sizes.now 0 (atoms_in atoms.entry.bytes.now)) }
{
    let mut floor = 0;
    for atom in atoms {
        let variable = atom.variable as usize;
        if atom.value >= sizes.get(variable).copied().unwrap_or(0) {
            return Err(Fault::OutsideBench);
        }
        if variable < floor {
            return Err(Fault::NotRising);
        }
        floor = variable + 1;
    }
    Ok(())
}

// Does an effect repeat a condition?
fn repeats(conditions: AtomsIn<'_>, mut effects: AtomsIn<'_>) -> bool
    ensures { result ≡ repeating (atoms_in conditions.entry.bytes.now) (atoms_in effects.entry.bytes.now) }
{
    effects.any(|effect| conditions.contains(effect))
}

// An action within the counts is within the limits, and its atoms are in order.
fn check_action(action: SpelledAction<'_>, sizes: &[u8]) -> Result<(), Fault>
    ensures { result ≡ or_fault (act_fault sizes.now (act_spelled action.entry)) }
{
    let SpelledAction {
        tenths,
        presses,
        conditions,
        effects,
    } = action;
    if tenths > 1_000_000 || presses > 1_000 {
        return Err(Fault::OverLimit);
    }
    if effects.len() == 0 {
        return Err(Fault::NoEffect);
    }
    check_atoms(conditions, sizes)?;
    check_atoms(effects, sizes)?;
    if repeats(conditions, effects) {
        return Err(Fault::RepeatsCondition);
    }
    Ok(())
}

// There is room for a variable after so many others, and its number of values is within the limits.
fn check_variable(count: usize, values: u8) -> Result<(), Fault>
    ensures { result ≡ or_fault (variable_fault count values) }
{
    if count >= 64 {
        return Err(Fault::TooMany);
    }
    if !(1..=32).contains(&values) {
        return Err(Fault::ValueCount);
    }
    Ok(())
}

// Is there no room for another action, or has it too many conditions or effects?
fn crowded(count: usize, action: SpelledAction<'_>) -> bool
    ensures { result ≡ crowding count (act_spelled action.entry).conditions (act_spelled action.entry).effects }
{
    count >= 1024 || action.conditions.len() > 16 || action.effects.len() > 16
}

// The numbers of values of the task's variables.
fn sizes_of(task: &Task) -> &[u8]
    ensures { result.now ≡ take task.now.variables task.now.sizes }
{
    &task.sizes[..task.variables]
}

// What a record says may follow what the task has.
fn check(task: &Task, part: Record<'_>) -> Result<(), Fault>
    ensures { result ≡ or_fault (fault_in (take task.now.variables task.now.sizes) task.now.actions (shown part.entry)) }
{
    let sizes = sizes_of(task);
    match part {
        Record::Variable { values, .. } => check_variable(task.variables, values),
        Record::Action { action, .. } => {
            if crowded(task.actions, action) {
                return Err(Fault::TooMany);
            }
            check_action(action, sizes)
        }
        Record::Goal { atoms, .. } => check_atoms(atoms, sizes),
    }
}

// The atoms that the bytes hold, as many as fit.
fn atoms_of<const N: usize>(spelled: AtomsIn<'_>) -> Atoms<N>
    ensures { length (atoms_in spelled.entry.bytes.now) ≤ N → listed result ≡ atoms_in spelled.entry.bytes.now }
{
    let mut atoms = Atoms::<N>::none();
    for atom in spelled {
        let _ = atoms.push(atom);
    }
    atoms
}

// The task with what a record says.
fn grow(task: Task, part: Record<'_>) -> Task
    requires { fault_in (take task.variables task.sizes) task.actions (shown part) ≡ None }
    ensures { (b : Bench) → Outline task b → Outline result (grown b (shown part.entry)) }
{
    let mut next = task;
    match part {
        Record::Variable { values, .. } => {
            next.sizes[task.variables] = values;
            next.variables = task.variables + 1;
        }
        Record::Action { .. } => {
            next.actions = task.actions + 1;
        }
        Record::Goal { atoms, .. } => {
            next.goal = atoms_of(atoms);
        }
    }
    next
}

// The task with what a record says, or the record's first fault.
fn admit(task: Task, part: Record<'_>) -> Result<Task, Refusal>
    ensures { (b : Bench) → Outline task b → Agree Outline result (admitted b (shown part.entry) (offset part.entry)) }
{
    let place = part.place();
    check(&task, part).map_err(|fault| fault.at(place))?;
    Ok(grow(task, part))
}

// What is seen after one more record.
fn step(seen: Seen, raw: Raw<'_>) -> Result<Seen, Refusal>
    ensures { (b : Bench) → Outline seen.task b → Agree Seeing result (after_record (reading seen.stage b) raw.entry.kind raw.entry.body.now raw.entry.at) }
{
    let stage = follow(seen.stage, raw.kind).ok_or(Fault::OutOfPlace.at(raw.at))?;
    let part = raw.read()?;
    let task = admit(seen.task, part)?;
    Ok(Seen { stage, task })
}

// The book's task, or the refusal of its first faulty record.
fn survey(book: &[u8]) -> Result<Task, Refusal>
    ensures { Agree Outline result (parse book.now) }
{
    let mut seen = Seen {
        stage: Stage::default(),
        task: Task {
            variables: 0,
            sizes: [0; 64],
            actions: 0,
            goal: Atoms::<64>::none(),
        },
    };
    for raw in Records::of(book) {
        seen = step(seen, raw?)?;
    }
    match seen.stage {
        Stage::Done => Ok(seen.task),
        _ => Err(Fault::NoGoal.at(book.len())),
    }
}

// The action that is spelled so.
fn action_of(spelled: SpelledAction<'_>) -> Action
    requires { LimitedAct (act_spelled spelled) }
    ensures { act_of result ≡ act_spelled spelled.entry }
{
    Action {
        tenths: spelled.tenths,
        presses: spelled.presses,
        conditions: atoms_of(spelled.conditions),
        effects: atoms_of(spelled.effects),
    }
}

// Writes the record's action, if it is one, after the first `count` places, and answers how many are
// taken then.
fn put(actions: &mut [Action], count: usize, part: Record<'_>) -> usize
    requires { (Limited (shown part)) × (count + length (acts_in (shown part)) ≤ length actions.old) }
    ensures value { result ≡ count + length (acts_in (shown part.entry)) }
    ensures first { map act_of (take result actions.new) ≡ map act_of (take count actions.old) ++ acts_in (shown part.entry) }
    ensures rest { drop result actions.new ≡ drop result actions.old }
{
    let Record::Action { action, .. } = part else {
        return count;
    };
    actions[count] = action_of(action);
    count + 1
}

// Writes the actions of an accepted book into the first places of the table.
fn fill(book: &[u8], actions: &mut [Action])
    requires { Fits book.now (length actions.old) }
    ensures { (b : Bench) → parse book.now ≡ Ok b → Filled actions.old actions.new b.actions }
{
    // A counted place of the table: only a record of an action takes one.
    let mut count = 0;
    for raw in Records::of(book) {
        let Ok(part) = raw.and_then(Raw::read) else {
            return;
        };
        count = put(actions, count, part);
    }
}

// Reads a book: its task, and its actions into the first places of the table. A refused book, or one with
// more actions than places, leaves the table as it was.
pub fn read(book: &[u8], actions: &mut [Action]) -> Result<Task, Refusal>
    ensures value { Agree (Holds actions.new) result (parse_into (length actions.old) book.now) }
    ensures table { Kept actions.old actions.new result }
    ensures room { IfOk result (λ task. task.actions ≤ length actions.new) }
    ensures lawful { IfOk result (λ task. Lawful (bench_of task actions.new)) }
    ensures printed { IfOk result (λ task. print (bench_of task actions.new) ≡ book.now) }
{
    let task = survey(book)?;
    if actions.len() < task.actions {
        return Err(Fault::ShortTable.at(1));
    }
    fill(book, actions);
    Ok(task)
}
