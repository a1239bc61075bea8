// Section one of a system file: the sizes.
ghost use Rattle.std.specs.Prelude.{◌≡◌, ◌-◌, ◌≤◌, length, drop, slice_index, Some};
ghost use Rattle.std.specs.Result.{result_err};
ghost use Rattle.files.specs.Pattern.{fits_at};
ghost use Rattle.files.specs.Sizes.{one_to, counts_fault, sizes_fault};
ghost use Rattle.files.specs.Told.{sizes_text};

use crate::must::must;
use std::fmt;

// How many there are of each.
#[derive(Clone, Copy, PartialEq, Eq, Debug)]
pub struct Sizes {
    pub processes: u8,
    pub variables: u8,
    pub values: u8,
    pub transitions: usize,
    pub patterns: usize,
}

impl fmt::Display for Sizes {
    ghost output = { λ z. Some (sizes_text z) };

    fn fmt<W: fmt::Write>(&self, f: &mut fmt::Formatter<W>) -> fmt::Result {
        let (processes, variables, values) = (self.processes, self.variables, self.values);
        let (transitions, patterns) = (self.transitions, self.patterns);
        write!(
            f,
            "system {processes} {variables} {values} {transitions} {patterns}"
        )
    }
}

// What section one says, by which the transitions and the patterns are judged.
#[derive(Clone, Copy)]
pub(crate) struct Counts<'a> {
    // the state count of each process
    pub(crate) states: &'a [u8],
    pub(crate) variables: u8,
    pub(crate) values: u8,
}

fn is_one_to(most: u8, count: u8) -> bool
    ensures { result ≡ one_to most count }
{
    (1..=most).contains(&count)
}

// Looks for the first state count that is wrong, with its place as the error.
fn check_counts(states: &[u8]) -> Result<(), usize>
    ensures { result_err result ≡ counts_fault 15 states.now }
{
    states
        .iter()
        .position(|count| !is_one_to(16, *count))
        .map_or(Ok(()), |i| Err(15 + i))
}

// Looks for the first fault of section one, which stands at 12, with its place as the error.
pub(crate) fn check_sizes(one: &[u8]) -> Result<(), usize>
    requires { 4 ≤ length one.now }
    ensures { result_err result ≡ sizes_fault one.now }
{
    must(is_one_to(4, one[0]), 12)?;
    must(is_one_to(4, one[1]), 13)?;
    must(is_one_to(4, one[2]), 14)?;
    must(one.len() == 3 + usize::from(one[0]), 12)?;
    check_counts(&one[3..])
}

impl<'a> Counts<'a> {
    // The state counts follow the three numbers that open section one.
    pub(crate) fn of(one: &'a [u8]) -> Counts<'a>
        requires { 4 ≤ length one.now }
        ensures states { result.states.now ≡ drop 3 one.now }
        ensures whole { length result.states.now ≡ length one.now - 3 }
        ensures variables { result.variables ≡ slice_index one.now 1 }
        ensures values { result.values ≡ slice_index one.now 2 }
    {
        Counts {
            states: &one[3..],
            variables: one[1],
            values: one[2],
        }
    }

    // Whether the process has the state, if one is named.
    pub(crate) fn has_state(&self, process: usize, state: Option<u8>) -> bool
        ensures { result ≡ fits_at self.now.states.now process state }
    {
        state.is_none_or(|named| self.states.get(process).is_some_and(|count| named < *count))
    }
}
