// What a bench holds, in bytes and in words, and the names of its machines.
#![tactic(auto)]

mod machine;
mod record;
mod show;

pub use machine::{Machine, UnknownMachine};
pub use record::Record;
pub use show::{Held, Queues};
