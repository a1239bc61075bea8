// What the programs share: the words they are called with, the files of a folder, bytes as text, and texts of cases.
#![tactic(auto)]

mod cases;
mod digits;
mod input;
mod tally;
mod words;

pub use cases::{Case, run_cases};
pub use digits::{Hex, decode};
pub use input::{folder_named, read};
pub use tally::Tally;
pub use words::Words;
