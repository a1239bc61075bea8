// The rules of the three machines, as they are played: what an act does to memory and to the queue of its process.
#![tactic(auto)]

mod act;
mod effect;
mod load_buffers;
mod memory;
mod moves;
mod operate;
mod plain;
mod rules;
mod store_buffers;

pub use act::{Act, Deed};
pub use effect::{Change, Effect, Write};
pub use load_buffers::LoadBuffers;
pub use moves::{Move, NoMove};
pub use plain::Plain;
pub use rules::{MOST, Rules};
pub use store_buffers::StoreBuffers;
