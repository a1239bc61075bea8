// A system, read as a plain machine.
ghost use Rattle.std.specs.Prelude.{◌≡◌};

use files::system::System;

#[derive(Drop)]
pub struct Plain {
    pub(crate) system: System,
}

impl Plain {
    pub fn new(system: System) -> Plain
        ensures { result.system ≡ system }
    {
        Plain { system }
    }
}
