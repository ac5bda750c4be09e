// Writes a bench book from a task and its table of actions.
ghost use Rattle.std.specs.Prelude.{◌≡◌, ℕ, ◌+◌, ◌*◌, ◌≤◌, List, length, take, sum_by};
ghost use Rattle.std.specs.List.{flat_map};
ghost use Rattle.task.specs.Benches.{act_of, bench_of};
ghost use Rattle.book.specs.Records.{action_part};
ghost use Rattle.book.specs.Print.{word_bytes, head_bytes, atom_bytes, both_bytes, body_bytes, variable_bytes, action_bytes, goal_bytes, print};
ghost use Rattle.book.specs.Writer.{HasRoom, Writes, bench_with, written, output_after, ReadsBack};

use crate::records::Kind;
use crate::sizes_of;
use task::{Action, Atom, Fault, Refusal, Task};

// Writes into the output, from a place on.
#[derive(Drop)]
struct Pen<'a> {
    out: &'a mut [u8],
    at: usize,
}

// What is written as the bytes `spelling`.
trait Spelled {
    ghost spelling: { Self → List ℕ };

    fn put(&self, pen: &mut Pen<'_>)
        requires { HasRoom pen.old (spelling self.now) }
        ensures { Writes pen.old pen.new (spelling self.now) };
}

impl Spelled for Atom {
    ghost spelling = { atom_bytes };

    fn put(&self, pen: &mut Pen<'_>) {
        pen.bytes(&[self.variable, self.value]);
    }
}

// A number of values, as the record of its variable.
impl Spelled for u8 {
    ghost spelling = { variable_bytes };

    fn put(&self, pen: &mut Pen<'_>) {
        pen.head(Kind::Variable, 1);
        pen.bytes(&[*self]);
    }
}

impl Spelled for Action {
    ghost spelling = { λ action. action_bytes (act_of action) };

    fn put(&self, pen: &mut Pen<'_>) {
        pen.head(Kind::Action, body_size(self) as u16);
        pen.bytes(&self.tenths.to_le_bytes());
        pen.word(self.presses);
        pen.both(self.conditions.list(), self.effects.list());
    }
}

impl Pen<'_> {
    fn bytes(&mut self, bytes: &[u8])
        requires { HasRoom self.old bytes.now }
        ensures { Writes self.old self.new bytes.now }
    {
        let end = self.at + bytes.len();
        let out = &mut *self.out;
        out[self.at..end].copy_from_slice(bytes);
        self.at = end;
    }

    // A number of two bytes, the low one first.
    fn word(&mut self, number: u16)
        requires { HasRoom self.old (word_bytes number) }
        ensures { Writes self.old self.new (word_bytes number) }
    {
        self.bytes(&number.to_le_bytes());
    }

    // The length and the kind of a record.
    fn head(&mut self, kind: Kind, size: u16)
        requires { HasRoom self.old (head_bytes kind size) }
        ensures { Writes self.old self.new (head_bytes kind size) }
    {
        self.word(size);
        self.word(u16::from(kind));
    }

    fn all<T: Spelled>(&mut self, items: &[T])
        requires { HasRoom self.old (flat_map T.spelling items.now) }
        ensures { Writes self.old self.new (flat_map T.spelling items.now) }
    {
        for item in items {
            item.put(self);
        }
    }

    // How many conditions and effects there are, and both.
    fn both(&mut self, conditions: &[Atom], effects: &[Atom])
        requires { HasRoom self.old (both_bytes conditions.now effects.now) × (length conditions.now + length effects.now ≤ 32) }
        ensures { Writes self.old self.new (both_bytes conditions.now effects.now) }
    {
        self.bytes(&[conditions.len() as u8, effects.len() as u8]);
        self.all(conditions);
        self.all(effects);
    }

    fn goal(&mut self, atoms: &[Atom])
        requires { HasRoom self.old (goal_bytes atoms.now) × (length atoms.now ≤ 64) }
        ensures { Writes self.old self.new (goal_bytes atoms.now) }
    {
        let size = 1 + 2 * atoms.len();
        self.head(Kind::Goal, size as u16);
        self.bytes(&[atoms.len() as u8]);
        self.all(atoms);
    }
}

// How many bytes the body of the action's record takes.
fn body_size(action: &Action) -> usize
    ensures value { result ≡ length (body_bytes (action_part (act_of action.now))) }
    ensures bound { result ≤ 72 }
{
    8 + 2 * (action.conditions.list().len() + action.effects.list().len())
}

// How many bytes the actions' records take.
fn actions_size(actions: &[Action]) -> usize
    requires { length actions.now ≤ 1024 }
    ensures value { result ≡ sum_by (λ action. length (action_bytes (act_of action))) actions.now }
    ensures bound { result ≤ 77824 }
{
    actions.iter().map(|action| 4 + body_size(action)).sum()
}

// How many bytes the book takes.
fn book_size(task: &Task, actions: &[Action]) -> usize
    requires { length actions.now ≤ 1024 }
    ensures { result ≡ length (print (bench_with task.now actions.now)) }
{
    5 * sizes_of(task).len() + actions_size(actions) + 5 + 2 * task.goal.list().len()
}

// Writes the book of a task, whose actions are the first of the table, into the first places of the output,
// and answers how many bytes it takes. A short table or output is refused, and then the output is as it was.
pub fn write(task: &Task, actions: &[Action], out: &mut [u8]) -> Result<usize, Refusal>
    ensures value { result ≡ written task.now actions.now (length out.old) }
    ensures output { out.new ≡ output_after (print (bench_of task.now actions.now)) out.old result }
    ensures back { ReadsBack (bench_of task.now actions.now) out.new result }
{
    // Each number stands beside the table that it names.
    if actions.len() < task.actions {
        return Err(Fault::ShortTable.at(1));
    }
    let listed = &actions[..task.actions];
    if out.len() < book_size(task, listed) {
        return Err(Fault::ShortTable.at(7));
    }
    let mut pen = Pen { out, at: 0 };
    pen.all(sizes_of(task));
    pen.all(listed);
    pen.goal(task.goal.list());
    Ok(pen.at)
}
