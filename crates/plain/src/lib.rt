// The plain machine of a system.
#![tactic(auto)]

mod lines;
mod machine;
mod plain;
mod steps;
mod undo;

pub use plain::Plain;
