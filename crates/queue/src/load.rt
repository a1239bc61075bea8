// A message of a load buffer.
ghost use Rattle.queue.specs.Kinds.{load_kind};

use crate::message::Message;

#[derive(Clone, Copy, PartialEq, Eq, Debug)]
pub struct LoadMessage {
    // the process wrote it itself; else it was propagated from memory
    pub own: bool,
    pub variable: u8,
    pub value: u8,
}

impl Message for LoadMessage {
    ghost kind = { load_kind };

    fn variable(&self) -> u8 {
        self.variable
    }

    fn value(&self) -> u8 {
        self.value
    }

    fn is_own(&self) -> bool {
        self.own
    }

    fn zero() -> LoadMessage {
        LoadMessage {
            own: false,
            variable: 0,
            value: 0,
        }
    }
}
