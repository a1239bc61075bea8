// The three sections of a system file, by the pairs of offset and length that open it.
ghost use Rattle.std.specs.Prelude.{◌≡◌, ◌+◌, ◌*◌, ◌<◌, length, None};
ghost use Rattle.std.specs.Result.{result_err};
ghost use Rattle.files.specs.Bytes.{two};
ghost use Rattle.files.specs.Sections.{pairs_fault, section as section_of};

use crate::bytes::two_at;
use crate::must::must;

// A section, with its place in the file.
#[derive(Clone, Copy)]
pub(crate) struct Section<'a> {
    pub(crate) bytes: &'a [u8],
    pub(crate) base: usize,
}

// Looks for the first fault of the three pairs, with its place as the error.
pub(crate) fn check_pairs(bytes: &[u8]) -> Result<(), usize>
    ensures { result_err result ≡ pairs_fault bytes.now }
{
    let length = bytes.len();
    must(length >= 12, length)?;
    let first = two_at(bytes, 0);
    let size = two_at(bytes, 2);
    must(first == 12 && size >= 4, 0)?;
    let second = two_at(bytes, 4);
    must(second == first + size, 4)?;
    let third = two_at(bytes, 8);
    must(third == second + two_at(bytes, 6), 8)?;
    must(third + two_at(bytes, 10) == length, length)
}

impl<'a> Section<'a> {
    // The section of a number, in a file whose pairs are right.
    pub(crate) fn of(file: &'a [u8], number: usize) -> Section<'a>
        requires { (pairs_fault file.now ≡ None) × (number < 3) }
        ensures bytes { result.bytes.now ≡ section_of number file.now }
        ensures base { result.base ≡ two file.now (4 * number) }
        ensures whole { length result.bytes.now ≡ two file.now (4 * number + 2) }
        ensures low { result.base < 65536 }
        ensures short { length result.bytes.now < 65536 }
    {
        let base = two_at(file, 4 * number);
        let size = two_at(file, 4 * number + 2);
        Section {
            bytes: &file[base..base + size],
            base,
        }
    }
}
