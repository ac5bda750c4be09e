// Prints the book `bench.bk` record by record, writes it again, and says whether the bytes are the same.
#![tactic(auto)]

use book::{read, write};
use std::fs;
use task::{Action, Atom, Task};

// The atoms, each as its variable and its value.
fn show_atoms(rt: &HostRuntime, atoms: &[Atom]) -> anyhow::Result<()> {
    if atoms.is_empty() {
        print!(rt; " nothing")?;
    }
    for atom in atoms {
        print!(rt; " {atom}")?;
    }
    Ok(())
}

fn show_action(rt: &HostRuntime, number: usize, action: &Action) -> anyhow::Result<()> {
    let tenths = action.tenths;
    let presses = action.presses;
    print!(rt; "action {number}: {tenths} tenths, {presses} presses; needs")?;
    show_atoms(rt, action.conditions.list())?;
    print!(rt; "; sets")?;
    show_atoms(rt, action.effects.list())?;
    println!(rt; "")?;
    Ok(())
}

fn show(rt: &HostRuntime, task: &Task, actions: &[Action]) -> anyhow::Result<()> {
    for (variable, values) in task.sizes.iter().take(task.variables).enumerate() {
        println!(rt; "variable {variable}: {values} values")?;
    }
    for (number, action) in actions.iter().take(task.actions).enumerate() {
        show_action(rt, number, action)?;
    }
    print!(rt; "goal:")?;
    show_atoms(rt, task.goal.list())?;
    println!(rt; "")?;
    Ok(())
}

// Writes the task again, and says whether the bytes are those of the book.
fn write_again(
    rt: &HostRuntime,
    task: &Task,
    actions: &[Action],
    book: &[u8],
) -> anyhow::Result<()> {
    let mut out = vec![in rt.alloc(); 0u8; book.len()]?;
    match write(task, actions, out.as_mut_slice()) {
        Ok(length) => {
            let same = out.as_slice() == book && length == book.len();
            let words = if same { "the same" } else { "not the same" };
            println!(rt; "written again: {length} bytes, {words}")?;
        }
        Err(refusal) => println!(rt; "{refusal}")?,
    }
    Ok(())
}

fn run(rt: &HostRuntime) -> anyhow::Result<()> {
    // A file that cannot be read is an empty book.
    let book = fs::read(rt, "bench.bk").unwrap_or_else(|_| Vec::new(rt.alloc()));
    let mut actions = [Action::default(); 1024];
    match read(book.as_slice(), &mut actions) {
        Ok(task) => {
            let size = book.len();
            println!(rt; "book of {size} bytes")?;
            show(rt, &task, &actions)?;
            write_again(rt, &task, &actions, book.as_slice())?;
        }
        Err(refusal) => println!(rt; "{refusal}")?,
    }
    Ok(())
}

fn main(rt: HostRuntime) -> anyhow::Result<()> {
    run(&rt)
}
