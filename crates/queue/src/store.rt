// A store that waits for its update.
ghost use Rattle.queue.specs.Kinds.{store_kind};

use crate::message::Message;

#[derive(Clone, Copy, PartialEq, Eq, Debug)]
pub struct StoreMessage {
    pub variable: u8,
    pub value: u8,
}

impl Message for StoreMessage {
    ghost kind = { store_kind };

    fn variable(&self) -> u8 {
        self.variable
    }

    fn value(&self) -> u8 {
        self.value
    }

    // every store is the process's own
    fn is_own(&self) -> bool {
        true
    }

    fn zero() -> StoreMessage {
        StoreMessage {
            variable: 0,
            value: 0,
        }
    }
}
