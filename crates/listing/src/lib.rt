// The rows of a folder as a list file.
#![tactic(auto)]

mod bytes;
mod writing;

pub use writing::write_list;
