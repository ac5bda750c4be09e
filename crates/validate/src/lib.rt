// Walks: a list of actions, done one after another from a start setting.
#![tactic(auto)]

ghost use Rattle.std.specs.Prelude.{◌≡◌, ◌≤◌, map, length, take, IfOk};
ghost use Rattle.std.specs.Result.{result_map_both};
ghost use Rattle.task.specs.Benches.{act_of};
ghost use Rattle.tariff.specs.Totals.{SumOfFew, and_act};
ghost use Rattle.validate.specs.declared.data.Unwalked.TheVariants.{Because, Memory};
ghost use Rattle.validate.specs.Walks.{shown, tried, moved, steps, standing, setting_of, begun, asked, said, Counted};
ghost use Rattle.validate.specs.Tellings.{bench, Reads, Tells};
ghost use Rattle.validate.specs.Right.{WalksRight};
ghost use Rattle.text.specs.Fields.{numbers_on};

mod data;
mod wording;

use book::read;
pub use data::{Costs, Line};
use data::{Bench, Standing, Unwalked};
use std::alloc::{AllocError, Global};
use std::array;
use tariff::{Presses, Tariff, Time};
use task::{Action, Fault, Setting, Task, first_outside, first_unmet, goal_holds, successor};
use text::{Unread, cut, numbers};

// The sum with the action's charge.
fn with_action<T: Tariff>(tariff: &T, sum: T::Charge, action: &Action) -> T::Charge
    ensures { SumOfFew (T.charges tariff.now) (and_act (T.charges tariff.now) sum (act_of action.now)) → result ≡ and_act (T.charges tariff.now) sum (act_of action.now) }
{
    tariff.add(sum, action, tariff.most()).unwrap_or(sum)
}

impl Standing {
    // Before the first action.
    fn new(setting: Setting) -> Standing
        ensures { result ≡ standing setting }
    {
        Standing {
            step: 1,
            setting,
            costs: Costs {
                time: Time.zero(),
                presses: Presses.zero(),
            },
        }
    }

    // The walk with one action more.
    #[tactic(auto, using(crate::proofs::Charged::time_few, crate::proofs::Charged::presses_few, crate::proofs::Charged::goes_on))]
    fn after(&self, action: &Action) -> Standing
        requires counted { Counted self.now }
        requires low { self.now.step ≤ 65536 }
        ensures value { result ≡ moved self.now (act_of action.now) }
        ensures counted { Counted result }
    {
        Standing {
            step: self.step + 1,
            setting: successor(action, self.setting),
            costs: Costs {
                time: with_action(&Time, self.costs.time, action),
                presses: with_action(&Presses, self.costs.presses, action),
            },
        }
    }
}

impl From<AllocError> for Unwalked {
    ghost from_gives = { λ e r. r ≡ Memory e };

    fn from(e: AllocError) -> Unwalked {
        Unwalked::Memory(e)
    }
}

impl From<Line> for Unwalked {
    ghost from_gives = { λ line r. r ≡ Because line };

    fn from(line: Line) -> Unwalked {
        Unwalked::Because(line)
    }
}

// The setting of the values, a value over 255 as 255, with 0 past the last.
fn setting_from(values: &[u32]) -> Setting
    ensures { result ≡ setting_of values.now }
{
    array::from_fn(|place| values.get(place).copied().unwrap_or(0).min(255) as u8)
}

// The start of these values, if the bench has it.
fn start_of(task: &Task, values: &[u32]) -> Result<Setting, Line>
    ensures { result_map_both (λ s. s) shown result ≡ begun (take task.now.variables task.now.sizes) values.now }
{
    if values.len() != task.variables {
        return Err(Line::WrongCount {
            given: values.len(),
            wanted: task.variables,
        });
    }
    let start = setting_from(values);
    match first_outside(task, start) {
        Some(place) => Err(Line::Refused(Fault::StartOutside.at(place))),
        None => Ok(start),
    }
}

// The numbers on a line, whose number in the input is given.
fn numbers_of(heap: Global, text: &[u8], line: usize) -> Result<Vec<u32>, Unwalked>
    ensures { Reads line (numbers_on text.now) result }
{
    numbers(heap, text).map_err(|unread| match unread {
        Unread::Field(field) => Line::NotANumber { line, field }.into(),
        Unread::Memory => AllocError.into(),
    })
}

impl Bench<'_> {
    // Can the action be done here?
    fn attempt(&self, at: &Standing, number: u32) -> Result<Action, Line>
        ensures { result_map_both act_of shown result ≡ tried (bench self.now) at.now number }
    {
        let step = at.step;
        let known = &self.actions[..self.task.actions];
        let Some(action) = known.get(number as usize) else {
            return Err(Line::NoAction { step, number });
        };
        match first_unmet(at.setting, action.conditions.list()) {
            Some(condition) => Err(Line::NotApplicable {
                step,
                number,
                condition,
            }),
            None => Ok(*action),
        }
    }

    // What is said of the actions, one after another from the start.
    fn walk_from(
        &self,
        heap: Global,
        start: Setting,
        numbers: &[u32],
    ) -> Result<Vec<Line>, AllocError>
        requires { length numbers.now ≤ 65536 }
        ensures { IfOk result (λ v. map shown v.items ≡ steps (bench self.now) (standing start) numbers.now) }
    {
        let mut lines = Vec::new(heap);
        let mut at = Standing::new(start);
        for number in numbers {
            match self.attempt(&at, *number) {
                Ok(action) => {
                    at = at.after(&action);
                    lines.push(Line::Done {
                        number: *number,
                        action,
                        costs: at.costs,
                    })?;
                }
                Err(line) => {
                    lines.push(line)?;
                    return Ok(lines);
                }
            }
        }
        lines.push(Line::End {
            goal: goal_holds(self.task, at.setting),
            costs: at.costs,
        })?;
        Ok(lines)
    }

    // What is said of the walk that the input's first two lines ask for.
    fn tell(&self, heap: Global, input: &[u8]) -> Result<Vec<Line>, Unwalked>
        ensures { Tells (asked (bench self.now) input.now) result }
    {
        let (first, rest) = cut(input, b'\n');
        let (second, _) = cut(rest, b'\n');
        let values = numbers_of(heap, first, 1)?;
        let start = start_of(self.task, &values)?;
        let list = numbers_of(heap, second, 2)?;
        if list.len() > 65_536 {
            return Err(Line::TooMany.into());
        }
        Ok(self.walk_from(heap, start, &list)?)
    }
}

// What is said of the bench of the book and of what the input asks for.
fn tell(heap: Global, book: &[u8], input: &[u8]) -> Result<Vec<Line>, Unwalked>
    ensures { Tells (said book.now input.now) result }
{
    let mut actions = [Action::default(); 1024];
    let task = read(book, &mut actions).map_err(Line::Refused)?;
    let bench = Bench {
        task: &task,
        actions: &actions,
    };
    bench.tell(heap, input)
}

// Walks the actions that the input asks for through the bench of the book: its first line has the start's
// values, its second the actions' numbers. The answer is what there is to say, line by line.
#[tactic(auto, using(crate::proofs::Rights::walks_right))]
pub fn walk(heap: Global, book: &[u8], input: &[u8]) -> Result<Vec<Line>, AllocError>
    ensures lines { IfOk result (λ v. map shown v.items ≡ said book.now input.now) }
    ensures right { WalksRight }
{
    match tell(heap, book, input) {
        Ok(lines) => Ok(lines),
        Err(Unwalked::Because(line)) => Ok(vec![in heap; line]?),
        Err(Unwalked::Memory(e)) => Err(e),
    }
}
