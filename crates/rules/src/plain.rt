// The plain machine: reads, writes and exchanges meet memory directly, and there are no queues.
ghost use Rattle.rules.specs.Plain.{plain_manner, plain_book};
ghost use Rattle.rules.specs.Exactness.{plain_exact};

use crate::act::Act;
use crate::effect::{Change, Effect, Write};
use crate::memory::value_of;
use crate::moves::Move;
use crate::operate::{Operations, operate};
use crate::rules::Rules;
use queue::{LoadMessage, Queue};

#[derive(Clone, Copy)]
pub struct Plain;

impl Operations for Plain {
    type Record = LoadMessage;

    ghost manner = { plain_manner };

    fn reads(memory: &[u8], _queue: &Queue<LoadMessage>, variable: u8, value: u8) -> bool {
        value_of(memory, variable) == value
    }

    fn writes(variable: u8, value: u8) -> Effect<LoadMessage> {
        Effect {
            write: Some(Write { variable, value }),
            change: Change::Keep,
        }
    }

    // no message ever waits
    fn is_clear(_queue: &Queue<LoadMessage>) -> bool {
        true
    }
}

// No record ever holds a message, so none is needed; those that are lent stay as they are.
impl Rules for Plain {
    type Record = LoadMessage;

    ghost book = { plain_book };

    ghost exact = { plain_exact };

    fn room() -> usize {
        0
    }

    // never made: there is no message to take
    fn emptying(process: u8) -> usize {
        Move::Delete { process }.number()
    }

    fn effect(act: Act, memory: &[u8], queue: &Queue<LoadMessage>) -> Option<Effect<LoadMessage>> {
        match act {
            Act::Operate(operation) => operate::<Plain>(operation, memory, queue),
            Act::Propagate(_) | Act::Delete | Act::Update => None,
        }
    }
}
