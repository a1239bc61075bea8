// Opens a list file, and hands out its lines by number.
ghost use Rattle.std.specs.Prelude.{◌≡◌};
ghost use Rattle.files.specs.Reader.{Opened, Written, OpensEvery, Handed, HandsEvery};

use crate::bytes::two_at;
use crate::directory::line_count;
use crate::list::{Line, ListReader};
use crate::list_fault::ListFault;

impl<'a> ListReader<'a> {
    // An opened file is the one that is written from its lines, and each file that is written from
    // at most 1,024 lines is opened.
    pub fn open(bytes: &'a [u8]) -> Result<ListReader<'a>, ListFault>
        ensures opened { Opened bytes.now result }
        ensures written { Written bytes.now result }
        ensures every { OpensEvery bytes.now result }
    {
        let count = line_count(bytes).map_err(ListFault::Directory)?;
        Ok(ListReader { bytes, count })
    }

    pub fn count(&self) -> usize
        ensures { result ≡ self.now.count }
    {
        self.count
    }

    // None past the last line; every other number has its line.
    #[tactic(auto, using(crate::proofs::Walks::line_within))]
    pub fn line(&self, number: usize) -> Option<Line<'a>>
        ensures handed { Handed self.now.bytes.now self.now.count number result }
        ensures every { HandsEvery self.now.bytes.now self.now.count number result }
    {
        if number >= self.count {
            return None;
        }
        let pair = 2 + 4 * number;
        let place = two_at(self.bytes, pair);
        let length = two_at(self.bytes, pair + 2);
        Some(Line {
            bytes: &self.bytes[place..place + length],
            number,
            place,
        })
    }
}
