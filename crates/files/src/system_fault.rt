// Why a system file is refused.
ghost use Rattle.std.specs.Prelude.{◌≡◌};
ghost use Rattle.files.specs.SystemFault.{system_numbers};
ghost use Rattle.files.specs.declared.system_fault.SystemFault.TheVariants.{Memory};

use crate::refusal::Refusal;
use std::alloc::{AllocError, AllocFailed};

// Each fault of a file has its place in the file.
#[derive(Clone, Copy, PartialEq, Eq, Debug)]
pub enum SystemFault {
    Sections(usize),
    Size(usize),
    Transition(usize),
    Pattern(usize),
    // the heap is exhausted, which is no fault of the file
    Memory,
}

impl From<AllocError> for SystemFault {
    ghost from_gives = { λ _ r. r ≡ Memory };

    fn from(_e: AllocError) -> SystemFault {
        SystemFault::Memory
    }
}

impl<T: Drop> From<AllocFailed<T>> for SystemFault {
    ghost from_gives = { λ _ r. r ≡ Memory };

    fn from(_e: AllocFailed<T>) -> SystemFault {
        SystemFault::Memory
    }
}

// The system file is part 1.
impl From<SystemFault> for Refusal {
    ghost from_gives = { λ fault r. r ≡ system_numbers fault };

    fn from(fault: SystemFault) -> Refusal {
        match fault {
            SystemFault::Sections(place) => Refusal::new(2, 1, place),
            SystemFault::Size(place) => Refusal::new(3, 1, place),
            SystemFault::Transition(place) => Refusal::new(4, 1, place),
            SystemFault::Pattern(place) => Refusal::new(5, 1, place),
            SystemFault::Memory => Refusal::new(0, 1, 0),
        }
    }
}
