// The load-buffer machine of a system.
#![tactic(auto)]

mod back;
mod bad;
mod layout;
mod lines;
mod load_buffers;
mod machine;
mod message;
mod order;
mod queue;
mod rows;
mod steps;
mod stored;
mod undo;

pub use load_buffers::LoadBuffers;
