// Load buffers: a write reaches memory at once, and what a process may still read waits in its queue.
ghost use Rattle.std.specs.Prelude.{◌≡◌};
ghost use Rattle.queue.specs.Kinds.{load_means};
ghost use Rattle.rules.specs.LoadBuffers.{load_manner, load_book, is_seen};
ghost use Rattle.rules.specs.Exactness.{load_exact};

use crate::act::Act;
use crate::effect::{Change, Effect, Write};
use crate::memory::{is_empty, value_of};
use crate::moves::Move;
use crate::operate::{Operations, operate};
use crate::rules::{MOST, Rules};
use queue::{LoadMessage, Queue};

#[derive(Clone, Copy)]
pub struct LoadBuffers;

fn is_seen(message: LoadMessage, variable: u8, value: u8) -> bool
    ensures { result ≡ is_seen variable value (load_means message) }
{
    !message.own && message.variable == variable && message.value == value
}

impl Operations for LoadBuffers {
    type Record = LoadMessage;

    ghost manner = { load_manner };

    // The newest own message of the variable has the value, or, with none, the oldest message is a seen one of both.
    fn reads(_memory: &[u8], queue: &Queue<LoadMessage>, variable: u8, value: u8) -> bool {
        match queue.newest_own(variable) {
            Some(newest) => newest == value,
            None => queue
                .oldest()
                .is_some_and(|message| is_seen(message, variable, value)),
        }
    }

    fn writes(variable: u8, value: u8) -> Effect<LoadMessage> {
        Effect {
            write: Some(Write { variable, value }),
            change: Change::Join(LoadMessage {
                own: true,
                variable,
                value,
            }),
        }
    }

    fn is_clear(queue: &Queue<LoadMessage>) -> bool {
        is_empty(queue)
    }
}

impl Rules for LoadBuffers {
    type Record = LoadMessage;

    ghost book = { load_book };

    ghost exact = { load_exact };

    fn room() -> usize {
        MOST
    }

    fn emptying(process: u8) -> usize {
        Move::Delete { process }.number()
    }

    fn effect(act: Act, memory: &[u8], queue: &Queue<LoadMessage>) -> Option<Effect<LoadMessage>> {
        match act {
            Act::Operate(operation) => operate::<LoadBuffers>(operation, memory, queue),
            Act::Propagate(variable) => Some(Effect {
                write: None,
                change: Change::Join(LoadMessage {
                    own: false,
                    variable,
                    value: value_of(memory, variable),
                }),
            }),
            Act::Delete => (!is_empty(queue)).then_some(Effect {
                write: None,
                change: Change::Leave,
            }),
            Act::Update => None,
        }
    }
}
