// Scripts: moves written one to a line, played on a bench.
#![tactic(auto)]

mod command;
mod run;

pub use command::{Command, parse};
pub use run::{Stop, obey, run_script};
