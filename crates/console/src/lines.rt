// The lines of the console.
ghost use Rattle.std.specs.Prelude.{◌≡◌, ◌≤◌, replicate};
ghost use Rattle.console.specs.Commands.{small, values, begins, advances, alone, command};
ghost use Rattle.console.specs.Left.{remaining};

use crate::command::Command;
use crate::fields::Fields;
use task::{Setting, Task};
use text::{any_number, number};

// A decimal number of at most 255.
fn small_number(text: &[u8]) -> Option<u8>
    ensures { result ≡ small text.now }
{
    u8::try_from(any_number(text)?).ok()
}

// The setting of one value for each of the first `count` variables, if the fields are just these.
#[tactic(auto, using(crate::proofs::Values::all_read))]
fn setting_of(mut fields: Fields, count: usize) -> Option<Setting>
    requires { count ≤ 64 }
    ensures { result ≡ values count 0 (replicate 64 0) (remaining fields.entry) }
{
    let mut setting = [0; 64];
    for value in setting[..count].iter_mut() {
        *value = small_number(fields.next()?)?;
    }
    fields.is_empty().then_some(setting)
}

// A bound, and a value for each variable.
fn begin_of(mut fields: Fields, variables: usize) -> Option<Command>
    requires { variables ≤ 64 }
    ensures { result ≡ begins variables (remaining fields.entry) }
{
    let bound = number(fields.next()?, 12)?;
    let start = setting_of(fields, variables)?;
    Some(Command::Begin { bound, start })
}

// A number of steps, and nothing else.
fn advance_of(mut fields: Fields) -> Option<Command>
    ensures { result ≡ advances (remaining fields.entry) }
{
    let steps = number(fields.next()?, 6)? as u32;
    bare(Command::Advance { steps }, fields)
}

// The command, if nothing else is on the line.
#[tactic(auto, using(crate::proofs::Values::alone_read))]
fn bare(command: Command, fields: Fields) -> Option<Command>
    ensures { result ≡ alone command (remaining fields.entry) }
{
    fields.is_empty().then_some(command)
}

// What the line asks of the bench, if it fits.
pub fn command_of(line: &[u8], task: &Task) -> Option<Command>
    ensures { result ≡ command task.now.variables line.now }
{
    let mut fields = Fields { left: Some(line) };
    let [letter] = fields.next()? else {
        return None;
    };
    match *letter as char {
        'B' => begin_of(fields, task.variables),
        'A' => advance_of(fields),
        'T' => bare(Command::Take, fields),
        'X' => bare(Command::Abandon, fields),
        _ => None,
    }
}
