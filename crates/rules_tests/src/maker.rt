// Benches from bytes: an atom is a variable byte and a value byte.
use rules::{Actions, All, Rule};
use std::alloc::{AllocError, Global};
use std::process::Abort;
use std::test::*;
use task::{Action, Atom, Atoms, Setting, Task};

// A bench with its table.
#[derive(Drop)]
pub struct Maker {
    alloc: Global,
    task: Task,
    table: Vec<Action>,
}

impl Maker {
    // A bench with so many values for each variable, no action yet, and the goal's atoms.
    pub(crate) fn new(alloc: Global, values: &[u8], goal: &[u8]) -> Maker {
        let task = Task {
            variables: values.len().min(64),
            sizes: setting(values),
            actions: 0,
            goal: atoms(goal),
        };
        let table = Vec::new(alloc);
        Maker { alloc, task, table }
    }

    // One action more; a task counts up to 1,024 of them.
    pub(crate) fn add(&mut self, conditions: &[u8], effects: &[u8]) -> Result<(), AllocError> {
        self.table.push(action(conditions, effects))?;
        self.task.actions = self.table.len().min(1024);
        Ok(())
    }

    // The first eight places of a table, blank past the bench's actions.
    fn lent(&self) -> [Action; 8] {
        let mut table = [action(b"", b""); 8];
        for (place, made) in table.iter_mut().zip(&self.table) {
            *place = *made;
        }
        table
    }

    // Each rule clears the work bytes over tables of other lengths too.
    pub(crate) fn clears(
        &self,
        rt: &impl Abort,
        values: &[u8],
        marks: &mut [u8],
        work: &mut [u8],
    ) -> Result<(), Fail> {
        assert!(rt; self.clears_by(&rules::Atoms, values, marks, work));
        work.fill(7);
        assert!(rt; self.clears_by(&Actions, values, marks, work));
        work.fill(7);
        assert!(rt; self.clears_by(&All, values, marks, work));
        Ok(())
    }

    // The rule clears the work bytes.
    fn clears_by<R: Rule>(
        &self,
        rule: &R,
        values: &[u8],
        marks: &mut [u8],
        work: &mut [u8],
    ) -> bool {
        let table = self.lent();
        rule.mark(&self.task, &table, setting(values), marks, work);
        work.iter().all(|byte| *byte == 0)
    }

    // Both rules mark the actions so, and All marks every one, whatever marks and work held.
    pub(crate) fn expect(&self, rt: &impl Abort, values: &[u8], marks: &[u8]) -> Result<(), Fail> {
        let ones = vec![in self.alloc; 1; self.task.actions]?;
        for dirt in 0..3 {
            assert!(rt; self.marks_so(&rules::Atoms, values, marks, dirt)?);
            assert!(rt; self.marks_so(&Actions, values, marks, dirt)?);
            assert!(rt; self.marks_so(&All, values, &ones, dirt)?);
        }
        Ok(())
    }

    // The rule marks the actions so, over whatever marks and work held, and clears the work bytes.
    fn marks_so<R: Rule>(
        &self,
        rule: &R,
        values: &[u8],
        expected: &[u8],
        dirt: u8,
    ) -> Result<bool, AllocError> {
        let mut marks = vec![in self.alloc; dirt; self.task.actions]?;
        let mut work = [dirt; 4096];
        let cleared = self.clears_by(rule, values, &mut marks, &mut work);
        Ok(cleared && marks.as_slice() == expected)
    }
}

// The atoms of the bytes, as far as there is room.
fn atoms<const N: usize>(bytes: &[u8]) -> Atoms<N> {
    let mut list = Atoms::none();
    let (pairs, _) = bytes.as_chunks::<2>();
    for [variable, value] in pairs {
        list.push(Atom {
            variable: *variable,
            value: *value,
        });
    }
    list
}

fn action(conditions: &[u8], effects: &[u8]) -> Action {
    Action {
        tenths: 1,
        presses: 1,
        conditions: atoms(conditions),
        effects: atoms(effects),
    }
}

// The values, and 0 past them.
fn setting(values: &[u8]) -> Setting {
    let mut all = [0; 64];
    for (place, value) in all.iter_mut().zip(values) {
        *place = *value;
    }
    all
}
