// The data of a bench.
ghost use Rattle.std.specs.Prelude.{◌≡◌, ◌≤◌, length, Some};
ghost use Rattle.task.specs.Atoms.{output_of};

use std::fmt;

// A variable with one of its values.
#[derive(Clone, Copy, PartialEq, Eq, Debug, Default)]
pub struct Atom {
    pub variable: u8,
    pub value: u8,
}

impl fmt::Display for Atom {
    ghost output = { λ a. Some (output_of a) };

    fn fmt<W: fmt::Write>(&self, f: &mut fmt::Formatter<W>) -> fmt::Result {
        let Atom { variable, value } = self;
        write!(f, "{variable}={value}")
    }
}

// Up to N atoms: the first `count` of `items`. No Vec: actions lie in tables that the caller lends, are copied,
// and take no memory of their own.
#[derive(Clone, Copy, PartialEq, Eq, Debug)]
pub struct Atoms<const N: usize> {
    pub(crate) items: [Atom; N],
    pub(crate) count: usize,
    ghost fits: { (count ≤ N) × (length items ≡ N) },
}

// What an action takes, what it needs, and what it sets.
#[derive(Clone, Copy, PartialEq, Eq, Debug)]
pub struct Action {
    pub tenths: u32,
    pub presses: u16,
    pub conditions: Atoms<16>,
    pub effects: Atoms<16>,
    ghost limits: { (tenths ≤ 1000000) × (presses ≤ 1000) },
}

// A bench but for its actions, which lie in a table beside it.
#[derive(Clone, Copy, PartialEq, Eq, Debug)]
pub struct Task {
    pub variables: usize,
    pub sizes: [u8; 64],
    pub actions: usize,
    pub goal: Atoms<64>,
    ghost limits: { (variables ≤ 64) × (actions ≤ 1024) },
}
