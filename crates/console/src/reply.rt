// What a line is answered, and its words.
ghost use Rattle.std.specs.Prelude.{◌≡◌, Some, IfOk, string_bytes};
ghost use Rattle.console.specs.Replies.{words};

use std::alloc::{AllocError, Global};
use std::fmt;

#[derive(Clone, Copy, Debug, PartialEq, Eq)]
pub enum Reply {
    Ready,
    Working { count: usize },
    Found { charge: u64, count: usize },
    NoPlan { count: usize },
    Full { count: usize },
    Do { action: u16, remaining: u64 },
    Rest,
    // No `Refusal`: a caller may hand in every number that a byte holds.
    No { number: u8, place: usize },
}

impl fmt::Display for Reply {
    ghost output = { λ r. Some (words r) };

    fn fmt<W: fmt::Write>(&self, f: &mut fmt::Formatter<W>) -> fmt::Result {
        match self {
            Reply::Ready => write!(f, "ready"),
            Reply::Working { count } => write!(f, "working {count}"),
            Reply::Found { charge, count } => write!(f, "found {charge} {count}"),
            Reply::NoPlan { count } => write!(f, "none {count}"),
            Reply::Full { count } => write!(f, "full {count}"),
            Reply::Do { action, remaining } => write!(f, "do {action} {remaining}"),
            Reply::Rest => write!(f, "rest"),
            Reply::No { number, place } => write!(f, "no {number} {place}"),
        }
    }
}

// The words of a reply.
pub fn words_of(heap: Global, reply: Reply) -> Result<String, AllocError>
    ensures { IfOk result (λ s. string_bytes s ≡ words reply) }
{
    // A word alone is copied: the formatter asks for more memory than the word takes.
    match reply {
        Reply::Ready => String::from_str(heap, "ready"),
        Reply::Rest => String::from_str(heap, "rest"),
        counted => counted.to_string(heap),
    }
}
