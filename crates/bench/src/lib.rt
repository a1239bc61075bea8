// Moves played by hand on the three machines.
#![tactic(auto)]

mod begin;
mod bench;
mod checks;
mod decode;
mod drain;
mod fault;
mod look;
mod perform;
mod play;

pub use bench::Bench;
pub use fault::BenchFault;
pub use look::Look;
