// Refusals: what was wrong, and where.
ghost use Rattle.std.specs.Prelude.{Some};
ghost use Rattle.task.specs.Refusals.{output_of};

use std::fmt;

// What was wrong. A fault's number is the same wherever it is reported.
#[derive(Clone, Copy, PartialEq, Eq, Debug)]
pub enum Fault {
    CutShort = 1,
    UnknownKind = 2,
    OutOfPlace = 3,
    WrongLength = 4,
    TooMany = 5,
    ValueCount = 6,
    OutsideBench = 7,
    NotRising = 8,
    NoEffect = 9,
    OverLimit = 10,
    RepeatsCondition = 11,
    NoGoal = 12,
    RowCount = 20,
    ShortTable = 21,
    StartOutside = 30,
    NoPlan = 31,
    NoStepLeft = 32,
    BadLine = 40,
    OutOfTurn = 41,
    LongBook = 42,
}

// Who refused, and so who is to mend it: the book's maker, whoever lends tables, the bench's user or the
// console's user.
#[derive(Clone, Copy, PartialEq, Eq, Debug)]
pub enum Layer {
    Book = 1,
    Tables = 2,
    Bench = 3,
    Console = 4,
}

// A fault and its place: a byte of the book, a table, a variable or a line, as the fault's layer has it.
#[derive(Clone, Copy, PartialEq, Eq, Debug)]
pub struct Refusal {
    pub fault: Fault,
    pub place: usize,
}

impl fmt::Display for Refusal {
    ghost output = { λ r. Some (output_of r) };

    fn fmt<W: fmt::Write>(&self, f: &mut fmt::Formatter<W>) -> fmt::Result {
        let number = self.number();
        let layer = self.layer();
        let place = self.place;
        write!(f, "refused: number {number}, layer {layer}, place {place}")
    }
}
