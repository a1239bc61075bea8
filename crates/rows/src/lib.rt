// The rows that stand in a folder: where they lie, what is below what, and why a call is turned down.
#![tactic(auto)]

mod fault;
pub mod iter;
mod lines;
mod search;
mod storable;
mod strip;

pub use fault::FolderFault;
pub use lines::{LONGEST_LINE, Lines, MOST_LINES, WIDEST};
pub use storable::Storable;
pub use strip::Strip;
