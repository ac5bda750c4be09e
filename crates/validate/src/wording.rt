// The words of a walk's lines.
use crate::data::{Costs, Line};
use std::fmt;
use task::{Action, Atom};

fn done<W: fmt::Write>(
    f: &mut fmt::Formatter<W>,
    number: u32,
    action: &Action,
    costs: &Costs,
) -> fmt::Result {
    write!(f, "action {number} sets")?;
    for atom in action.effects.list() {
        write!(f, " {atom}")?;
    }
    write!(
        f,
        ": {} tenths, {} presses; so far {} tenths, {} presses",
        action.tenths, action.presses, costs.time, costs.presses.presses
    )
}

fn stopped<W: fmt::Write>(
    f: &mut fmt::Formatter<W>,
    step: usize,
    number: u32,
    condition: Atom,
) -> fmt::Result {
    write!(
        f,
        "stopped at step {step}: action {number} is not applicable, {condition} does not hold"
    )
}

fn ended<W: fmt::Write>(f: &mut fmt::Formatter<W>, goal: bool, costs: &Costs) -> fmt::Result {
    let holds = if goal { "holds" } else { "does not hold" };
    write!(
        f,
        "the goal {holds}\ncost by Time: {} tenths\ncost by Presses: {} presses, {} tenths",
        costs.time, costs.presses.presses, costs.presses.tenths
    )
}

impl fmt::Display for Line {
    fn fmt<W: fmt::Write>(&self, f: &mut fmt::Formatter<W>) -> fmt::Result {
        match self {
            Line::Refused(refusal) => write!(f, "{refusal}"),
            Line::NotANumber { line, field } => {
                write!(
                    f,
                    "line {line}, field {field}: not a number of up to nine digits"
                )
            }
            Line::WrongCount { given, wanted } => {
                write!(
                    f,
                    "the start has {given} values, the bench {wanted} variables"
                )
            }
            Line::TooMany => write!(f, "over 65536 actions"),
            Line::Done {
                number,
                action,
                costs,
            } => done(f, *number, action, costs),
            Line::NoAction { step, number } => {
                write!(f, "stopped at step {step}: there is no action {number}")
            }
            Line::NotApplicable {
                step,
                number,
                condition,
            } => stopped(f, *step, *number, *condition),
            Line::End { goal, costs } => ended(f, *goal, costs),
        }
    }
}
