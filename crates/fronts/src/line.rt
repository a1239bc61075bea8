// Bytes of lines, which begin as rows do.
ghost use Rattle.std.specs.Prelude.{◌≡◌};
ghost use Rattle.fronts.specs.Reading.{below, taken};

use files::list_fault::LineFault;

// The byte at a place of a line, if it is below a limit.
pub fn byte_below(line: &[u8], at: usize, limit: u8) -> Result<u8, LineFault>
    ensures { result ≡ taken (below limit) line.now at }
{
    let byte = line.get(at).copied().ok_or(LineFault::Early(line.len()))?;
    if byte < limit {
        Ok(byte)
    } else {
        Err(LineFault::Byte(at))
    }
}
