// What the rules of the machines share.
ghost use Rattle.std.specs.Prelude.{◌≡◌, slice_index};
ghost use Rattle.rules.specs.Memory.{still as no_effect, exchanged, is_empty};
ghost use Rattle.queue.specs.Waiting.{waiting};

use crate::effect::{Change, Effect, Write};
use queue::{Message, Queue};

// The value of a variable.
pub(crate) fn value_of(memory: &[u8], variable: u8) -> u8
    ensures { result ≡ slice_index memory.now variable }
{
    memory.get(usize::from(variable)).copied().unwrap_or(0)
}

// Nothing but the state changes.
pub(crate) fn still<M>() -> Effect<M>
    ensures { result ≡ no_effect }
{
    Effect {
        write: None,
        change: Change::Keep,
    }
}

// An exchange, where memory has the first value.
pub(crate) fn exchange<M: Copy>(memory: &[u8], variable: u8, old: u8, new: u8) -> Option<Effect<M>>
    ensures { result ≡ exchanged memory.now variable old new }
{
    (value_of(memory, variable) == old).then_some(Effect {
        write: Some(Write {
            variable,
            value: new,
        }),
        change: Change::Keep,
    })
}

// Whether no message is queued.
pub(crate) fn is_empty<M: Message + Copy>(queue: &Queue<M>) -> bool
    ensures { result ≡ is_empty (waiting M.Message.kind queue.now) }
{
    queue.len() == 0
}
