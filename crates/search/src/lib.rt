// The search for a cheapest plan: its rows, its steps, and what is promised of them.
#![tactic(auto)]

ghost use Rattle.search.specs.Cases.{Cases};

mod checks;
mod conclude;
mod data;
mod ended;
mod entry;
mod marker;
mod open;
mod phase;
mod plan;
mod queue;
mod rest;
mod searching;
mod sizes;
mod steps;

pub use data::Row;
pub use ended::take;
pub use entry::{Entry, Waiting};
pub use phase::{Advanced, Ended, Ending, Refused, Rest, Search, Tables, Taken};
pub use rest::begin;
pub use searching::advance;

// The worked cases hold of the definitions. The number says nothing: what is asked for is the clause.
pub fn cases_stand() -> u8
    ensures { Cases }
{
    0
}
