// Section three of a system file: the bad patterns.
ghost use Rattle.std.specs.Prelude.{◌≡◌, ◌+◌, ◌/◌, ◌^◌, ◌<◌, length};
ghost use Rattle.std.specs.Result.{result_err};
ghost use Rattle.files.specs.Pattern.{state_named, fits, pattern_of};
ghost use Rattle.files.specs.Pieces.{Built, decoded, section_fault};

use crate::pieces::{check_pieces, read_pieces};
use crate::sections::Section;
use crate::sizes::Counts;
use crate::system_fault::SystemFault;
use std::alloc::Global;
use std::array;

// A set of configurations: those whose processes are in the states that are named.
#[derive(Clone, Copy, PartialEq, Eq, Debug)]
pub struct Pattern {
    // None: any state, and at each place past the processes
    pub states: [Option<u8>; 4],
}

// The state that a pattern's bytes name for a process.
fn state_named(bytes: &[u8], process: usize) -> Option<u8>
    ensures { result ≡ state_named bytes.now process }
{
    bytes.get(process).copied().filter(|state| *state != 255)
}

impl Counts<'_> {
    // Whether each process has the state that the pattern names for it.
    fn has_states(&self, pattern: Pattern) -> bool
        ensures { result ≡ fits self.now.states.now pattern }
    {
        pattern
            .states
            .iter()
            .enumerate()
            .all(|(process, state)| self.has_state(process, *state))
    }

    // The pattern of one byte a process, or None if it is wrong.
    fn read_pattern(&self, bytes: &[u8]) -> Option<Pattern>
        ensures { result ≡ pattern_of self.now.states.now bytes.now }
    {
        let pattern = Pattern {
            states: array::from_fn(|process| state_named(bytes, process)),
        };
        self.has_states(pattern).then_some(pattern)
    }

    // Looks for the first fault of section three.
    pub(crate) fn check_patterns(&self, section: Section) -> Result<(), usize>
        requires { (0 < length self.now.states.now) × (section.base + length section.bytes.now < 2 ^ 32) }
        ensures { result_err result ≡ section_fault (pattern_of self.now.states.now) (length self.now.states.now) 16 section.entry.base section.entry.bytes.now }
    {
        check_pieces(
            section,
            self.states.len(),
            16,
            |piece| self.read_pattern(piece),
        )
    }

    // The patterns of section three.
    pub(crate) fn read_patterns(
        &self,
        heap: Global,
        bytes: &[u8],
    ) -> Result<Vec<Pattern>, SystemFault>
        requires { 0 < length self.now.states.now }
        ensures { Built (decoded (pattern_of self.now.states.now) (length self.now.states.now) (length bytes.now / length self.now.states.now) bytes.now) result }
    {
        read_pieces(
            heap,
            bytes,
            self.states.len(),
            |piece| self.read_pattern(piece),
        )
    }
}
