// The records of a bench book, as their parts of the book.
ghost use Rattle.std.specs.Prelude.{◌≡◌, ◌+◌, ◌^◌, ◌≤◌, ◌<◌, length, ok_or, IfOk};

use crate::atoms::AtomsIn;
use task::{Fault, Refusal};

// What a record is about.
#[derive(Clone, Copy, PartialEq, Eq, Debug)]
pub(crate) enum Kind {
    Variable = 1,
    Action = 2,
    Goal = 3,
}

impl From<Kind> for u16 {
    ghost use Rattle.book.specs.Print.{code_of};

    ghost from_gives = { λ kind number. number ≡ code_of kind };

    fn from(kind: Kind) -> u16 {
        kind as u16
    }
}

impl TryFrom<u16> for Kind {
    ghost use Rattle.task.specs.declared.refusal.Fault.TheVariants.{UnknownKind};
    ghost use Rattle.book.specs.Records.{kind_of};

    type Error = Fault;

    ghost try_from_gives = { λ number result. result ≡ ok_or (kind_of number) UnknownKind };

    fn try_from(number: u16) -> Result<Kind, Fault> {
        match number {
            1 => Ok(Kind::Variable),
            2 => Ok(Kind::Action),
            3 => Ok(Kind::Goal),
            _ => Err(Fault::UnknownKind),
        }
    }
}

// The first four bytes of a record: its kind and the length of its body.
#[derive(Clone, Copy, PartialEq, Eq, Debug)]
pub(crate) struct Head {
    pub(crate) kind: Kind,
    pub(crate) size: usize,
}

// A record whose kind is known and whose body is not yet read.
#[derive(Clone, Copy, Debug)]
pub(crate) struct Raw<'a> {
    pub(crate) kind: Kind,
    pub(crate) body: &'a [u8],
    pub(crate) at: usize,
}

// An action as its record spells it.
#[derive(Clone, Copy, Debug)]
pub(crate) struct SpelledAction<'a> {
    pub(crate) tenths: u32,
    pub(crate) presses: u16,
    pub(crate) conditions: AtomsIn<'a>,
    pub(crate) effects: AtomsIn<'a>,
}

// A record as its parts of the book, and where it stands.
#[derive(Clone, Copy, Debug)]
pub(crate) enum Record<'a> {
    Variable {
        values: u8,
        at: usize,
    },
    Action {
        action: SpelledAction<'a>,
        at: usize,
    },
    Goal {
        atoms: AtomsIn<'a>,
        at: usize,
    },
}

// The records of a book, up to one whose head has a fault: what is left of the book, and where that stands.
#[derive(Clone, Copy, Debug)]
pub(crate) struct Records<'a> {
    left: &'a [u8],
    at: usize,
    ghost fits: { at + length left.now < 2 ^ 64 },
}

impl<'a> Records<'a> {
    ghost use Rattle.book.specs.Records.{head_of};

    pub(crate) fn of(book: &'a [u8]) -> Records<'a>
        ensures left { result.left.now ≡ book.now }
        ensures place { result.at ≡ 0 }
    {
        Records { left: book, at: 0 }
    }

    // The head of the record that stands first.
    fn head(&self) -> Result<Head, Refusal>
        ensures value { result ≡ head_of self.now.left.now self.now.at }
        ensures within { IfOk result (λ h. 4 + h.size ≤ length self.now.left.now) }
    {
        let at = self.at;
        let [low, high, kind_low, kind_high, rest @ ..] = self.left else {
            return Err(Fault::CutShort.at(at));
        };
        let size = usize::from(u16::from_le_bytes([*low, *high]));
        if rest.len() < size {
            return Err(Fault::CutShort.at(at));
        }
        let kind = Kind::try_from(u16::from_le_bytes([*kind_low, *kind_high])).map_err(
            |fault| fault.at(at),
        )?;
        Ok(Head { kind, size })
    }
}

impl<'a> Iterator for Records<'a> {
    ghost use Rattle.std.specs.Iterator.{at_most};
    ghost use Rattle.book.specs.Records.{left_of, Handed};

    type Item = Result<Raw<'a>, Refusal>;

    ghost next_gives = { Handed };

    ghost remaining = { λ s. at_most (length (left_of s)) };

    fn next(&mut self) -> Option<Result<Raw<'a>, Refusal>> {
        if self.left.is_empty() {
            return None;
        }
        match self.head() {
            Ok(Head { kind, size }) => {
                let (record, rest) = self.left.split_at(4 + size);
                let raw = Raw {
                    kind,
                    body: &record[4..],
                    at: self.at,
                };
                self.left = rest;
                self.at += 4 + size;
                Some(Ok(raw))
            }
            Err(refusal) => {
                self.left = &[];
                Some(Err(refusal))
            }
        }
    }
}

impl<'a> Raw<'a> {
    ghost use Rattle.book.specs.Records.{Reads};

    fn variable(self) -> Result<Record<'a>, Refusal>
        ensures { Reads Kind.Variable self.entry result }
    {
        let [values] = self.body else {
            return Err(Fault::WrongLength.at(self.at));
        };
        Ok(Record::Variable {
            values: *values,
            at: self.at,
        })
    }

    fn action(self) -> Result<Record<'a>, Refusal>
        ensures { Reads Kind.Action self.entry result }
    {
        let body = self.body;
        if body.len() < 8 || body.len() != 8 + 2 * (body[6] as usize + body[7] as usize) {
            return Err(Fault::WrongLength.at(self.at));
        }
        let split = 8 + 2 * body[6] as usize;
        let action = SpelledAction {
            tenths: u32::from_le_bytes([body[0], body[1], body[2], body[3]]),
            presses: u16::from_le_bytes([body[4], body[5]]),
            conditions: AtomsIn {
                bytes: &body[8..split],
            },
            effects: AtomsIn {
                bytes: &body[split..],
            },
        };
        Ok(Record::Action {
            action,
            at: self.at,
        })
    }

    fn goal(self) -> Result<Record<'a>, Refusal>
        ensures { Reads Kind.Goal self.entry result }
    {
        let body = self.body;
        if body.is_empty() || body.len() != 1 + 2 * body[0] as usize {
            return Err(Fault::WrongLength.at(self.at));
        }
        Ok(Record::Goal {
            atoms: AtomsIn { bytes: &body[1..] },
            at: self.at,
        })
    }

    // What the record says.
    pub(crate) fn read(self) -> Result<Record<'a>, Refusal>
        ensures { Reads self.entry.kind self.entry result }
    {
        match self.kind {
            Kind::Variable => self.variable(),
            Kind::Action => self.action(),
            Kind::Goal => self.goal(),
        }
    }
}

impl Record<'_> {
    ghost use Rattle.book.specs.Records.{offset};

    // Where the record stands.
    pub(crate) fn place(self) -> usize
        ensures { result ≡ offset self.entry }
    {
        match self {
            Record::Variable { at, .. } | Record::Action { at, .. } | Record::Goal { at, .. } => at,
        }
    }
}
