// One kind of queue, for pending stores and for load messages.
#![tactic(auto)]

mod fifo;
mod load;
mod message;
mod store;

pub use fifo::Queue;
pub use load::LoadMessage;
pub use message::Message;
pub use store::StoreMessage;
