// Section two of a system file: the transitions.
ghost use Rattle.std.specs.Prelude.{◌≡◌, ◌+◌, ◌/◌, ◌^◌, ◌<◌, length};
ghost use Rattle.std.specs.Result.{result_err};
ghost use Rattle.files.specs.Pieces.{Built, decoded, section_fault};
ghost use Rattle.files.specs.Transition.{operation_fits, operation_of, is_drawn, transition_of};

use crate::pieces::{check_pieces, read_pieces};
use crate::sections::Section;
use crate::sizes::Counts;
use crate::system_fault::SystemFault;
use std::alloc::Global;

#[derive(Clone, Copy, PartialEq, Eq, Debug)]
pub enum Operation {
    Nop,
    Read { variable: u8, value: u8 },
    Write { variable: u8, value: u8 },
    Fence,
    Exchange { variable: u8, old: u8, new: u8 },
}

#[derive(Clone, Copy, PartialEq, Eq, Debug)]
pub struct Transition {
    pub process: u8,
    pub before: u8,
    pub operation: Operation,
    pub after: u8,
}

// The operation of four bytes of a file, the first of which is its code; none if that is unknown, or a field that the
// operation does not use is not 0.
fn operation_of(code: u8, variable: u8, first: u8, second: u8) -> Option<Operation>
    ensures { result ≡ operation_of code variable first second }
{
    let unused = variable == 0 && first == 0 && second == 0;
    match code {
        0 if unused => Some(Operation::Nop),
        1 if second == 0 => Some(Operation::Read {
            variable,
            value: first,
        }),
        2 if second == 0 => Some(Operation::Write {
            variable,
            value: first,
        }),
        3 if unused => Some(Operation::Fence),
        4 => Some(Operation::Exchange {
            variable,
            old: first,
            new: second,
        }),
        _ => None,
    }
}

impl Counts<'_> {
    // Whether the variable and the values of an operation are the system's.
    fn has_operation(&self, operation: Operation) -> bool
        ensures { result ≡ operation_fits self.now.variables self.now.values operation }
    {
        match operation {
            Operation::Nop | Operation::Fence => true,
            Operation::Read { variable, value } | Operation::Write { variable, value } => {
                variable < self.variables && value < self.values
            }
            Operation::Exchange { variable, old, new } => variable < self.variables
                && old < self.values
                && new < self.values,
        }
    }

    // Whether the numbers of a transition are the system's.
    fn has_transition(&self, transition: Transition) -> bool
        ensures { result ≡ is_drawn self.now.states.now self.now.variables self.now.values transition }
    {
        let process = usize::from(transition.process);
        self.has_state(process, Some(transition.before))
            && self.has_state(process, Some(transition.after))
            && self.has_operation(transition.operation)
    }

    // The transition of seven bytes, or None if they are wrong.
    fn read_transition(&self, seven: &[u8]) -> Option<Transition>
        requires { length seven.now ≡ 7 }
        ensures { result ≡ transition_of self.now.states.now self.now.variables self.now.values seven.now }
    {
        let operation = operation_of(seven[2], seven[3], seven[4], seven[5])?;
        let transition = Transition {
            process: seven[0],
            before: seven[1],
            operation,
            after: seven[6],
        };
        self.has_transition(transition).then_some(transition)
    }

    // Looks for the first fault of section two.
    pub(crate) fn check_transitions(&self, section: Section) -> Result<(), usize>
        requires { section.base + length section.bytes.now < 2 ^ 32 }
        ensures { result_err result ≡ section_fault (transition_of self.now.states.now self.now.variables self.now.values) 7 64 section.entry.base section.entry.bytes.now }
    {
        check_pieces(section, 7, 64, |seven| self.read_transition(seven))
    }

    // The transitions of section two.
    pub(crate) fn read_transitions(
        &self,
        heap: Global,
        bytes: &[u8],
    ) -> Result<Vec<Transition>, SystemFault>
        ensures { Built (decoded (transition_of self.now.states.now self.now.variables self.now.values) 7 (length bytes.now / 7) bytes.now) result }
    {
        read_pieces(heap, bytes, 7, |seven| self.read_transition(seven))
    }
}
