// Reads a system file.
ghost use Rattle.std.specs.Prelude.{◌≡◌, None};
ghost use Rattle.std.specs.Result.{result_err};
ghost use Rattle.files.specs.ReadSystem.{system_fault, Taken};

use crate::sections::{Section, check_pairs};
use crate::sizes::{Counts, check_sizes};
use crate::system::System;
use crate::system_fault::SystemFault;
use std::alloc::Global;

// Looks for the first fault of a file, before any memory is asked for.
fn check(bytes: &[u8]) -> Result<(), SystemFault>
    ensures { result_err result ≡ system_fault bytes.now }
{
    check_pairs(bytes).map_err(SystemFault::Sections)?;
    let one = Section::of(bytes, 0).bytes;
    check_sizes(one).map_err(SystemFault::Size)?;
    let counts = Counts::of(one);
    counts
        .check_transitions(Section::of(bytes, 1))
        .map_err(SystemFault::Transition)?;
    counts
        .check_patterns(Section::of(bytes, 2))
        .map_err(SystemFault::Pattern)
}

// The system of a file that has no fault.
fn build(heap: Global, bytes: &[u8]) -> Result<System, SystemFault>
    requires { system_fault bytes.now ≡ None }
    ensures { Taken bytes.now result }
{
    let counts = Counts::of(Section::of(bytes, 0).bytes);
    let states = Vec::from_slice(heap, counts.states)?;
    let transitions = counts.read_transitions(heap, Section::of(bytes, 1).bytes)?;
    let patterns = counts.read_patterns(heap, Section::of(bytes, 2).bytes)?;
    Ok(System {
        variables: counts.variables,
        values: counts.values,
        states,
        transitions,
        patterns,
    })
}

impl System {
    // The system of a file, or the first fault.
    pub fn read(heap: Global, bytes: &[u8]) -> Result<System, SystemFault>
        ensures { Taken bytes.now result }
    {
        check(bytes)?;
        build(heap, bytes)
    }
}
