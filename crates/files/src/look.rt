// What a system says.
ghost use Rattle.std.specs.Prelude.{◌≡◌, IfSome};
ghost use Rattle.std.specs.List.{slice_get};
ghost use Rattle.files.specs.Program.{program, sizes_of, Between, Ranges, Drawn, Fitting};

use crate::pattern::Pattern;
use crate::sizes::Sizes;
use crate::system::System;
use crate::transition::Transition;

impl System {
    pub fn sizes(&self) -> Sizes
        ensures value { result ≡ sizes_of (program self.now) }
        ensures ranges { Ranges result }
    {
        Sizes {
            processes: self.states.len() as u8,
            variables: self.variables,
            values: self.values,
            transitions: self.transitions.len(),
            patterns: self.patterns.len(),
        }
    }

    // None exactly when there is no such process.
    pub fn state_count(&self, process: usize) -> Option<u8>
        ensures value { result ≡ slice_get (program self.now).states process }
        ensures range { IfSome result (Between 1 16) }
    {
        self.states.get(process).copied()
    }

    // None exactly when there is no such transition.
    pub fn transition(&self, number: usize) -> Option<Transition>
        ensures value { result ≡ slice_get (program self.now).transitions number }
        ensures drawn { IfSome result (Drawn (program self.now)) }
    {
        self.transitions.get(number).copied()
    }

    // None exactly when there is no such pattern.
    pub fn pattern(&self, number: usize) -> Option<Pattern>
        ensures value { result ≡ slice_get (program self.now).patterns number }
        ensures fitting { IfSome result (Fitting (program self.now)) }
    {
        self.patterns.get(number).copied()
    }
}
