// A system, read as a load-buffer machine.
ghost use Rattle.std.specs.Prelude.{◌≡◌};

use files::system::System;

#[derive(Drop)]
pub struct LoadBuffers {
    pub(crate) system: System,
}

impl LoadBuffers {
    pub fn new(system: System) -> LoadBuffers
        ensures { result.system ≡ system }
    {
        LoadBuffers { system }
    }
}
