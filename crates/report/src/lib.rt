// A list judged against its system, from the two files to the lines that are printed.
#![tactic(auto)]

mod checking;
mod outcome;

pub use checking::check;
pub use outcome::Outcome;
