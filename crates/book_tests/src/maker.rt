// Makes books, and reads and writes them.
use book::{read, write};
use std::alloc::{AllocError, Global};
use std::process::Abort;
use std::test::Fail;
use task::{Action, Atom, Atoms, Refusal, Task};

// A book that is made byte by byte.
#[derive(Drop)]
pub(crate) struct Maker {
    bytes: Vec<u8>,
}

impl Maker {
    pub(crate) fn new(alloc: Global) -> Maker {
        Maker {
            bytes: Vec::new(alloc),
        }
    }

    pub(crate) fn add(&mut self, bytes: &[u8]) -> Result<(), AllocError> {
        self.bytes.extend_from_slice(bytes)
    }

    // So many variables of 32 values.
    pub(crate) fn variables(&mut self, count: u8) -> Result<(), AllocError> {
        for _ in 0..count {
            self.add(b"\x01\x00\x01\x00\x20")?;
        }
        Ok(())
    }

    // Atoms of the first variables, all with this value.
    pub(crate) fn atoms(&mut self, count: u8, value: u8) -> Result<(), AllocError> {
        for variable in 0..count {
            self.add(&[variable, value])?;
        }
        Ok(())
    }

    // An action of 7 tenths and 1 press with so many conditions, with value 0, and effects, with value 1.
    pub(crate) fn action(&mut self, conditions: u8, effects: u8) -> Result<(), AllocError> {
        let size = 8 + 2 * (u16::from(conditions) + u16::from(effects));
        self.add(&size.to_le_bytes())?;
        self.add(b"\x02\x00\x07\x00\x00\x00\x01\x00")?;
        self.add(&[conditions, effects])?;
        self.atoms(conditions, 0)?;
        self.atoms(effects, 1)
    }

    pub(crate) fn bytes(&self) -> &[u8] {
        self.bytes.as_slice()
    }
}

// What a table's places hold before a book is read.
pub(crate) fn spare() -> Action {
    Action {
        tenths: 9,
        presses: 9,
        conditions: Atoms::default(),
        effects: Atoms::default(),
    }
}

// A refusal's number, layer and place.
pub(crate) fn parts(refusal: Refusal) -> (u8, u8, usize) {
    (refusal.number(), refusal.layer(), refusal.place)
}

// The atoms are those of the bytes, two for each: its variable and its value.
pub(crate) fn same_atoms(atoms: &[Atom], expected: &[u8]) -> bool {
    expected.len() == 2 * atoms.len()
        && atoms.iter().zip(expected.chunks_exact(2)).all(|(atom, pair)| pair
            == [atom.variable, atom.value].as_slice())
}

pub(crate) fn same_action(
    action: &Action,
    tenths: u32,
    presses: u16,
    conditions: &[u8],
    effects: &[u8],
) -> bool {
    action.tenths == tenths
        && action.presses == presses
        && same_atoms(action.conditions.list(), conditions)
        && same_atoms(action.effects.list(), effects)
}

// The book is refused with this number, at this place, and the table keeps what it held.
pub(crate) fn refused(
    rt: &(impl Abort + Alloc<A = Global>),
    book: &[u8],
    number: u8,
    place: usize,
) -> Result<(), Fail> {
    let mut table = [spare(); 2];
    assert_eq!(rt;
        read(book, &mut table).map_err(parts),
        Err((number, 1, place))
    );
    assert_eq!(rt; table, [spare(); 2]);
    Ok(())
}

// So is the book of these bytes and those after them.
pub(crate) fn refused_after(
    rt: &(impl Abort + Alloc<A = Global>),
    ahead: &[u8],
    record: &[u8],
    number: u8,
    place: usize,
) -> Result<(), Fail> {
    let mut book = Maker::new(rt.alloc());
    book.add(ahead)?;
    book.add(record)?;
    refused(rt, book.bytes(), number, place)
}

// The book is accepted, with so many variables, actions and atoms in the goal.
pub(crate) fn accepted(
    rt: &(impl Abort + Alloc<A = Global>),
    book: &[u8],
    variables: usize,
    actions: usize,
    atoms: usize,
) -> Result<(), Fail> {
    let mut table = [spare(); 1024];
    let task = read(book, &mut table)?;
    assert_eq!(rt; task.variables, variables);
    assert_eq!(rt; task.actions, actions);
    assert_eq!(rt; task.goal.list().len(), atoms);
    Ok(())
}

// The output begins with the book, and its other places hold 7.
fn holds(out: &[u8], book: &[u8]) -> bool {
    out.strip_prefix(book)
        .is_some_and(|rest| rest.iter().all(|byte| *byte == 7))
}

// Writing into so many places is refused for this table, and they keep what they held.
pub(crate) fn not_written(
    rt: &(impl Abort + Alloc<A = Global>),
    task: &Task,
    actions: &[Action],
    places: usize,
    table: usize,
) -> Result<(), Fail> {
    let mut out = vec![in rt.alloc(); 7u8; places]?;
    assert_eq!(rt;
        write(task, actions, out.as_mut_slice()).map_err(parts),
        Err((21, 2, table))
    );
    assert!(rt; holds(out.as_slice(), b""));
    Ok(())
}

// The first of so many places then hold the book, and the others what they held.
pub(crate) fn written(
    rt: &(impl Abort + Alloc<A = Global>),
    task: &Task,
    actions: &[Action],
    places: usize,
    book: &[u8],
) -> Result<(), Fail> {
    let mut out = vec![in rt.alloc(); 7u8; places]?;
    assert_eq!(rt; write(task, actions, out.as_mut_slice()), Ok(book.len()));
    assert!(rt; holds(out.as_slice(), book));
    Ok(())
}

// The book is read and written again: into one byte too few, into as many bytes, and into more.
pub(crate) fn round_trip(rt: &(impl Abort + Alloc<A = Global>), book: &[u8]) -> Result<(), Fail> {
    let mut table = [spare(); 1024];
    let task = read(book, &mut table)?;
    let size = book.len();
    not_written(rt, &task, &table, size.saturating_sub(1), 7)?;
    written(rt, &task, &table, size, book)?;
    written(rt, &task, &table, 80000, book)
}
