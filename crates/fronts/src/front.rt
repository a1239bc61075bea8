// Which bytes are fronts.
ghost use Rattle.std.specs.Prelude.{◌≡◌, ◌+◌, ◌<◌, ◌≤◌, length, Decides, IfNone, IfSome, slice_index};
ghost use Rattle.files.specs.Program.{program};
ghost use Rattle.fronts.specs.Fronts.{FrontFits, front_len, limit_of};

use files::system::System;

// The one length of the fronts.
pub fn front_length(system: &System) -> usize
    ensures value { result ≡ front_len (program system.now) }
    ensures some { 0 < result }
    ensures few { result ≤ 8 }
{
    let sizes = system.sizes();
    usize::from(sizes.processes) + usize::from(sizes.variables)
}

// How many bytes may stand at a place: a process has so many states, a variable so many values.
pub fn limit(system: &System, place: usize) -> u8
    ensures value { result ≡ limit_of (program system.now) place }
    ensures some { 1 ≤ result }
    ensures few { result ≤ 16 }
{
    system
        .state_count(place)
        .unwrap_or_else(|| system.sizes().values)
}

// Whether the bytes are a front.
pub fn front_fits(system: &System, front: &[u8]) -> bool
    ensures { Decides result (FrontFits (program system.now) front.now) }
{
    let long = front_length(system);
    // By place: this is asked of every row, and enumerating its bytes is slower.
    front.len() == long && (0..long).all(|i| front[i] < limit(system, i))
}

// Bytes that are a front of a system.
#[derive(Clone, Copy)]
pub struct Front<'a> {
    pub system: &'a System,
    pub bytes: &'a [u8],
    ghost fits: { FrontFits (program system.now) bytes.now },
}

impl<'a> Front<'a> {
    // None exactly when the bytes are no front.
    pub fn new(system: &'a System, bytes: &'a [u8]) -> Option<Front<'a>>
        ensures none { IfNone result (FrontFits (program system.now) bytes.now → ⊥) }
        ensures system { IfSome result (λ front. front.system.now ≡ system.now) }
        ensures bytes { IfSome result (λ front. front.bytes.now ≡ bytes.now) }
    {
        if !front_fits(system, bytes) {
            return None;
        }
        Some(Front { system, bytes })
    }

    // The state of a process; 0 where there is no such byte.
    pub fn state(&self, process: u8) -> u8
        ensures { result ≡ slice_index self.now.bytes.now process }
    {
        self.byte(usize::from(process))
    }

    // The value of a variable; 0 where there is no such byte.
    pub fn value(&self, variable: u8) -> u8
        ensures { result ≡ slice_index self.now.bytes.now (length (program self.now.system.now).states + variable) }
    {
        self.byte(usize::from(self.system.sizes().processes) + usize::from(variable))
    }

    fn byte(&self, place: usize) -> u8
        ensures { result ≡ slice_index self.now.bytes.now place }
    {
        self.bytes.get(place).copied().unwrap_or(0)
    }
}
