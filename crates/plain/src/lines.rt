// Lines, which are the rows themselves.
ghost use Rattle.std.specs.Result.{result_err};
ghost use Rattle.files.specs.Program.{program};
ghost use Rattle.machines.specs.Kind.{LineAnswer};
ghost use Rattle.plain.specs.PlainRules.{plain_rules};

use files::list_fault::LineFault;
use files::system::System;
use fronts::{byte_below, front_length, limit};

// Whether the bytes are a line, or where they stop being one.
pub(crate) fn check_line(system: &System, line: &[u8]) -> Result<(), LineFault>
    ensures { LineAnswer (plain_rules (program system.now)) line.now (result_err result) }
{
    let long = front_length(system);
    // A fault is told by its place in the line, so the loop counts the places.
    for i in 0..long {
        byte_below(line, i, limit(system, i))?;
    }
    if long < line.len() {
        return Err(LineFault::Byte(long));
    }
    Ok(())
}
