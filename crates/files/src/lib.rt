// The two files that the judge is given: a system, and a list of configurations.
#![tactic(auto)]

mod bytes;
mod directory;
pub mod list;
pub mod list_fault;
mod look;
mod must;
pub mod pattern;
mod pieces;
mod read_system;
mod reader;
pub mod refusal;
mod sections;
pub mod sizes;
pub mod system;
pub mod system_fault;
pub mod transition;
