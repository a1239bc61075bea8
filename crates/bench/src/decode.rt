// The deed that a move's number stands for.
ghost use Rattle.std.specs.Prelude.{◌≡◌, ◌<◌, length, IfSome};
ghost use Rattle.files.specs.Program.{program};
ghost use Rattle.bench.specs.Deeds.{deed_of, by_transition, staying, by_move};

use files::system::System;
use files::transition::Transition;
use rules::{Act, Deed, Move};

// The deed of a transition, where its process is in the state before.
fn by_transition(states: &[u8], t: Transition) -> Option<Deed>
    ensures { result ≡ by_transition states.now t }
{
    let process = usize::from(t.process);
    let state = *states.get(process)?;
    (state == t.before).then_some(Deed {
        process,
        act: Act::Operate(t.operation),
        state: t.after,
    })
}

// The deed that leaves a process in its state, where there is such a process.
fn staying_in(states: &[u8], process: u8, act: Act) -> Option<Deed>
    ensures { result ≡ staying states.now process act }
{
    let process = usize::from(process);
    let state = *states.get(process)?;
    Some(Deed {
        process,
        act,
        state,
    })
}

// The deed of a move; none where its process is in another state, or there is no such variable, process or transition.
fn deed_of_move(system: &System, states: &[u8], step: Move) -> Option<Deed>
    ensures { result ≡ by_move (program system.now) states.now step }
{
    match step {
        Move::Transition(index) => by_transition(states, system.transition(index)?),
        Move::Propagate { process, variable } => {
            if variable < system.sizes().variables {
                staying_in(states, process, Act::Propagate(variable))
            } else {
                None
            }
        }
        Move::Delete { process } => staying_in(states, process, Act::Delete),
        Move::Update { process } => staying_in(states, process, Act::Update),
    }
}

// The deed of a number; none where there is no such move, or its process is in another state.
pub(crate) fn deed_of(system: &System, states: &[u8], number: usize) -> Option<Deed>
    ensures value { result ≡ deed_of (program system.now) states.now number }
    ensures process { IfSome result (λ d. d.process < length states.now) }
{
    deed_of_move(system, states, Move::try_from(number).ok()?)
}
