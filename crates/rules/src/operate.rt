// What an operation does, written once for the three machines.
ghost use Rattle.std.specs.Prelude.{◌≡◌};
ghost use Rattle.rules.specs.Operations.{Manner, operated};
ghost use Rattle.queue.specs.Waiting.{waiting};

use crate::effect::Effect;
use crate::memory::{exchange, still};
use files::transition::Operation;
use queue::{Message, Queue};

// Where the machines differ. `Rules::effect` calls `operate`, so this is a trait beside `Rules`.
pub(crate) trait Operations {
    type Record: Message + Copy;

    ghost manner: { Manner Self.Record };

    // Whether a read of the variable yields the value.
    fn reads(memory: &[u8], queue: &Queue<Self::Record>, variable: u8, value: u8) -> bool
        ensures { result ≡ manner.reads memory.now (waiting Self.Record.Message.kind queue.now) variable value };

    // What a write does.
    fn writes(variable: u8, value: u8) -> Effect<Self::Record>
        ensures { result ≡ manner.writes variable value };

    // Whether the queue lets a fence or an exchange pass.
    fn is_clear(queue: &Queue<Self::Record>) -> bool
        ensures { result ≡ manner.is_clear (waiting Self.Record.Message.kind queue.now) };
}

// What an operation does, or none where it is not possible.
pub(crate) fn operate<O: Operations>(
    operation: Operation,
    memory: &[u8],
    queue: &Queue<O::Record>,
) -> Option<Effect<O::Record>>
    ensures { result ≡ operated O.manner operation memory.now (waiting O.Record.Message.kind queue.now) }
{
    match operation {
        Operation::Nop => Some(still()),
        Operation::Read { variable, value } => {
            O::reads(memory, queue, variable, value).then_some(still())
        }
        Operation::Write { variable, value } => Some(O::writes(variable, value)),
        Operation::Fence => O::is_clear(queue).then_some(still()),
        Operation::Exchange { variable, old, new } => {
            if O::is_clear(queue) {
                exchange(memory, variable, old, new)
            } else {
                None
            }
        }
    }
}
