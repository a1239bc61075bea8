// Messages as bytes: 16 × own + 4 × variable + value. Rows are bytes that lie packed in lent memory, so a message stays one
// of them, and what it says is read by these functions.
ghost use Rattle.std.specs.Prelude.{◌≡◌, ◌+◌, ◌*◌, ◌<◌, Decides};
ghost use Rattle.load_buffers.specs.Messages.{MessageFits, variable_of, value_of, own_of};

use files::sizes::Sizes;

// Whether the byte is a message of the system.
pub(crate) fn message_fits(sizes: Sizes, message: u8) -> bool
    ensures { Decides result (MessageFits sizes message) }
{
    message < 32 && variable_of(message) < sizes.variables && value_of(message) < sizes.values
}

pub(crate) fn variable_of(message: u8) -> u8
    ensures value { result ≡ variable_of message }
    ensures small { result < 4 }
{
    message / 4 % 4
}

pub(crate) fn value_of(message: u8) -> u8
    ensures value { result ≡ value_of message }
    ensures small { result < 4 }
{
    message % 4
}

// Whether the process wrote it itself; else it was propagated from memory.
pub(crate) fn is_own(message: u8) -> bool
    ensures { result ≡ own_of message }
{
    message >= 16
}

// A variable and a value below 4 are what fits into a byte, so the two that make one ask for it.
pub(crate) fn seen(variable: u8, value: u8) -> u8
    requires variable { variable < 4 }
    requires value { value < 4 }
    ensures { result ≡ 4 * variable + value }
{
    4 * variable + value
}

pub(crate) fn own(variable: u8, value: u8) -> u8
    requires variable { variable < 4 }
    requires value { value < 4 }
    ensures { result ≡ 16 + (4 * variable + value) }
{
    16 + seen(variable, value)
}
