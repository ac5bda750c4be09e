// The smallest closed set by a plain closure, beside what the rules mark. The program compare has a closure of
// its own: two oracles that share no code share no slip.
ghost use Rattle.std.specs.Prelude.{◌<◌, IfSome};

use crate::maker::Maker;
use std::alloc::{AllocError, Global};
use std::process::Abort;
use std::test::*;

// A value, or none, for each of four variables.
type Row = [Option<u8>; 4];

#[derive(Clone, Copy)]
struct Step {
    conditions: Row,
    effects: Row,
}

// The next number of a sequence without much pattern.
fn next(seed: u32) -> u32 {
    (seed % 65537 * 75 + 74) % 65537
}

fn value(seed: u32) -> u8 {
    (seed % 3) as u8
}

fn some_value(seed: u32) -> Option<u8> {
    if seed % 3 == 0 {
        Some(value(seed / 3))
    } else {
        None
    }
}

fn some_row(seed: u32) -> Row {
    [
        some_value(seed),
        some_value(seed / 9),
        some_value(seed / 81),
        some_value(seed / 729),
    ]
}

// Each effect that a condition repeats is left out, and then at least one is there.
fn made_step(seed: u32) -> Step {
    let conditions = some_row(seed);
    let mut effects = some_row(next(seed));
    for (effect, condition) in effects.iter_mut().zip(&conditions) {
        if *effect == *condition {
            *effect = None;
        }
    }
    if effects.iter().all(|effect| effect.is_none()) {
        effects[3] = Some(if conditions[3] == Some(0) { 1 } else { 0 });
    }
    Step {
        conditions,
        effects,
    }
}

// The lowest variable whose value is asked for and is not there.
fn missing(asked: Row, values: [u8; 4]) -> Option<usize>
    ensures { IfSome result (λ v. v < 4) }
{
    asked.iter().zip(&values).position(|(asked, value)| asked.is_some_and(|asked| asked != *value))
}

fn differ(left: Row, right: Row) -> bool {
    left.iter().zip(&right).any(|(left, right)| left.is_some() && right.is_some() && left != right)
}

// Does the member call for the other?
fn calls(member: Step, other: Step, values: [u8; 4]) -> bool {
    match missing(member.conditions, values) {
        Some(v) => other.effects[v] == member.conditions[v],
        None => {
            differ(other.effects, member.conditions)
                || differ(other.effects, member.effects)
                || differ(member.effects, other.conditions)
        }
    }
}

// Eight rounds of adding what the members call for.
fn closure(steps: [Step; 8], goal: Row, values: [u8; 4]) -> [u8; 8] {
    let mut marks = [0; 8];
    if let Some(v) = missing(goal, values) {
        for (mark, step) in marks.iter_mut().zip(&steps) {
            if step.effects[v] == goal[v] {
                *mark = 1;
            }
        }
    }
    for _ in 0..8 {
        for (j, member) in steps.iter().enumerate() {
            if marks[j] == 1 {
                for (mark, other) in marks.iter_mut().zip(&steps) {
                    if calls(*member, *other, values) {
                        *mark = 1;
                    }
                }
            }
        }
    }
    marks
}

// A row as the bytes of its atoms.
fn bytes_of(alloc: Global, row: Row) -> Result<Vec<u8>, AllocError> {
    let mut bytes = Vec::new(alloc);
    for (variable, value) in (0u8..4).zip(&row) {
        if let Some(value) = value {
            bytes.push(variable)?;
            bytes.push(*value)?;
        }
    }
    Ok(bytes)
}

// Makes a bench of eight actions and a setting from a number, compares, and answers the next number.
pub(crate) fn compare(rt: &impl Abort, alloc: Global, seed: u32) -> Result<u32, Fail> {
    let mut seed = next(seed);
    let goal = some_row(seed);
    let mut bench = Maker::new(alloc, b"\x03\x03\x03\x03", &bytes_of(alloc, goal)?);
    let mut steps = [made_step(seed); 8];
    for step in steps.iter_mut() {
        seed = next(seed);
        *step = made_step(seed);
        bench.add(
            &bytes_of(alloc, step.conditions)?,
            &bytes_of(alloc, step.effects)?,
        )?;
    }
    seed = next(seed);
    let values = [
        value(seed),
        value(seed / 3),
        value(seed / 9),
        value(seed / 27),
    ];
    let marks = closure(steps, goal, values);
    bench.expect(rt, &values, &marks)?;
    Ok(seed)
}
