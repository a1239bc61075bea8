// The rules of a machine.
ghost use Rattle.std.specs.Prelude.{◌≡◌};
ghost use Rattle.machines.specs.Step.{number_of};
ghost use Rattle.rules.specs.Rulebook.{Rulebook, Exact, room};
ghost use Rattle.queue.specs.Waiting.{waiting};

use crate::act::Act;
use crate::effect::Effect;
use queue::{Message, Queue};

// the most messages that a process may have pending on a machine with queues
pub const MOST: usize = 8;

pub trait Rules {
    type Record: Message + Copy;

    ghost book: { Rulebook Self.Record };

    // How many messages a process may have pending. This is no constant, since a clause cannot name one of a type parameter.
    fn room() -> usize
        ensures { result ≡ room book };

    // The number of the move that takes the oldest message of a process, as calls and refusals name it.
    fn emptying(process: u8) -> usize
        ensures { result ≡ number_of process book.emptying };

    // What an act does, or none where it is not possible.
    fn effect(act: Act, memory: &[u8], queue: &Queue<Self::Record>) -> Option<Effect<Self::Record>>
        ensures { result ≡ book.effect act memory.now (waiting Self.Record.Message.kind queue.now) };

    ghost exact: { Exact Self.Record.Message.kind book };
}
