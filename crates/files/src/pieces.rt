// A section that is a row of pieces of equal width.
ghost use Rattle.std.specs.Prelude.{◌≡◌, ℕ, ◌+◌, ◌/◌, ◌^◌, ◌<◌, List, Option, length};
ghost use Rattle.std.specs.Result.{result_err};
ghost use Rattle.files.specs.Pieces.{Built, Reads, decoded, section_fault};

use crate::must::must;
use crate::sections::Section;
use crate::system_fault::SystemFault;
use std::alloc::Global;

// Looks for the first fault of a section, with its place as the error: bytes that are left over,
// more pieces than `most`, or a piece that `read` finds wrong.
pub(crate) fn check_pieces<T: Copy, F: Fn(&[u8]) -> Option<T>>(
    section: Section,
    width: usize,
    most: usize,
    read: F,
) -> Result<(), usize>
    requires wide { 0 < width }
    requires fits { section.base + length section.bytes.now < 2 ^ 32 }
    requires takes { (f : _) (piece : _) → length piece.now ≡ width → F.pre f piece }
    ensures { (decode : List ℕ → Option T) → Reads F.Fn read decode → result_err result ≡ section_fault decode width most section.entry.base section.entry.bytes.now }
{
    let Section { bytes, base } = section;
    must(
        bytes.len() % width == 0 && bytes.len() / width <= most,
        base,
    )?;
    bytes
        .chunks_exact(width)
        .map(&read)
        .position(|answer| answer.is_none())
        .map_or(Ok(()), |i| Err(base + width * i))
}

// What the pieces say, the wrong ones left out.
pub(crate) fn read_pieces<T: Copy, F: Fn(&[u8]) -> Option<T>>(
    heap: Global,
    bytes: &[u8],
    width: usize,
    read: F,
) -> Result<Vec<T>, SystemFault>
    requires wide { 0 < width }
    requires takes { (f : _) (piece : _) → length piece.now ≡ width → F.pre f piece }
    ensures { (decode : List ℕ → Option T) → Reads F.Fn read decode → Built (decoded decode width (length bytes.now / width) bytes.now) result }
{
    Ok(bytes.chunks_exact(width).filter_map(&read).collect(heap)?)
}
