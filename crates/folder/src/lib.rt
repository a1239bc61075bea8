// A folder of lines over any machine: its calls.
#![tactic(auto)]

mod entering;
mod folder;
mod growing;
mod judging;
mod showing;
mod striking;
mod taking;
mod writing;

pub use folder::Folder;
