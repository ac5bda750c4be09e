// The console: a bench, asked line by line.
#![tactic(auto)]

mod command;
mod fields;
mod lines;
mod reply;

pub use command::Command;
pub use lines::command_of;
pub use reply::{Reply, words_of};
