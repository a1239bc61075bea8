// The front of a row, with which the rows of every machine begin: the state of each process, the value of each variable.
#![tactic(auto)]

mod bad;
mod digit;
mod found;
mod front;
mod line;
mod zero;

pub use bad::bad_front;
pub use found::{Found, find_numbered};
pub use front::{Front, front_fits, front_length, limit};
pub use line::byte_below;
pub use zero::is_zero;
