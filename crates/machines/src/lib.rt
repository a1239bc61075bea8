// What the judge asks of a machine.
#![tactic(auto)]

mod basis;
mod examples;
mod hardware;
mod machine;
mod row;

pub use basis::predecessors_cover;
pub use examples::examples_hold;
pub use hardware::load_buffers_cover_stores;
pub use machine::Machine;
pub use row::OrderedRow;
