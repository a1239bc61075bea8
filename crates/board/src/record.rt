// Message records as they are shown.
use queue::{LoadMessage, Message, StoreMessage};

pub trait Record: Message {
    // A store has no own mark: it is always the process's own.
    fn of(own: bool, variable: u8, value: u8) -> Self;

    // Whether the record shows an own mark.
    fn mark(&self) -> bool;

    // 4 × variable + value, and for a load message 16 more if it is own.
    fn byte(&self) -> u8;
}

// The variables and values of a system are below 4.
fn packed(variable: u8, value: u8) -> u8 {
    (variable & 3) * 4 + (value & 3)
}

impl Record for StoreMessage {
    fn of(_own: bool, variable: u8, value: u8) -> StoreMessage {
        StoreMessage { variable, value }
    }

    fn mark(&self) -> bool {
        false
    }

    fn byte(&self) -> u8 {
        packed(self.variable, self.value)
    }
}

impl Record for LoadMessage {
    fn of(own: bool, variable: u8, value: u8) -> LoadMessage {
        LoadMessage {
            own,
            variable,
            value,
        }
    }

    fn mark(&self) -> bool {
        self.own
    }

    fn byte(&self) -> u8 {
        let low = packed(self.variable, self.value);
        if self.own { low | 16 } else { low }
    }
}
