// Lists of calls on one folder, and the ledger that they keep.
#![tactic(auto)]

mod call;
mod driver;

pub use call::{Answer, Call, Deed};
pub use driver::{play, replay};
