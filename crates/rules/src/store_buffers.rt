// Store buffers: a write waits in the queue of its process until an update carries it into memory.
ghost use Rattle.std.specs.Prelude.{◌≡◌};
ghost use Rattle.rules.specs.StoreBuffers.{store_manner, store_book, carried};
ghost use Rattle.queue.specs.Kinds.{store_kind};
ghost use Rattle.rules.specs.Exactness.{store_exact};
ghost use Rattle.queue.specs.Waiting.{waiting};

use crate::act::Act;
use crate::effect::{Change, Effect, Write};
use crate::memory::{is_empty, value_of};
use crate::moves::Move;
use crate::operate::{Operations, operate};
use crate::rules::{MOST, Rules};
use queue::{Queue, StoreMessage};

#[derive(Clone, Copy)]
pub struct StoreBuffers;

impl Operations for StoreBuffers {
    type Record = StoreMessage;

    ghost manner = { store_manner };

    // The newest queued store of the variable tells its value, else memory does.
    fn reads(memory: &[u8], queue: &Queue<StoreMessage>, variable: u8, value: u8) -> bool {
        match queue.newest_own(variable) {
            Some(newest) => newest == value,
            None => value_of(memory, variable) == value,
        }
    }

    fn writes(variable: u8, value: u8) -> Effect<StoreMessage> {
        Effect {
            write: None,
            change: Change::Join(StoreMessage { variable, value }),
        }
    }

    fn is_clear(queue: &Queue<StoreMessage>) -> bool {
        is_empty(queue)
    }
}

// An update carries the oldest store into memory.
fn update(queue: &Queue<StoreMessage>) -> Option<Effect<StoreMessage>>
    ensures { result ≡ carried (waiting store_kind queue.now) }
{
    queue.oldest().map(|oldest| Effect {
        write: Some(Write {
            variable: oldest.variable,
            value: oldest.value,
        }),
        change: Change::Leave,
    })
}

impl Rules for StoreBuffers {
    type Record = StoreMessage;

    ghost book = { store_book };

    ghost exact = { store_exact };

    fn room() -> usize {
        MOST
    }

    fn emptying(process: u8) -> usize {
        Move::Update { process }.number()
    }

    fn effect(
        act: Act,
        memory: &[u8],
        queue: &Queue<StoreMessage>,
    ) -> Option<Effect<StoreMessage>> {
        match act {
            Act::Operate(operation) => operate::<StoreBuffers>(operation, memory, queue),
            Act::Update => update(queue),
            Act::Propagate(_) | Act::Delete => None,
        }
    }
}
