// The row by which a folder grows: a storable missing one with no other strictly below it.
#![tactic(auto)]

mod missing;
mod pick;
mod picking;

pub use missing::missing_row;
