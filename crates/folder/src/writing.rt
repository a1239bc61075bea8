// Writing all lines out.
ghost use Rattle.std.specs.Prelude.{◌≡◌, length};
ghost use Rattle.rows.specs.Checks.{KeptIfRefused};
ghost use Rattle.rows.specs.Standing.{standing};
ghost use Rattle.folder.specs.Calls.{Retaken, WrittenOut};

use super::folder::Folder;
use listing::write_list;
use machines::{Machine, OrderedRow};
use rows::FolderFault;

impl<M: Machine> Folder<M> {
    // Writes all lines as a list file to the front of a place, and gives the file's length. Taken into an
    // empty folder with room for it, the file gives the same rows again.
    pub fn write_out(&self, memory: &[u8], place: &mut [u8]) -> Result<usize, FolderFault>
        ensures written { let k = M.OrderedRow.kind self.now.machine in WrittenOut k (M.Machine.rules self.now.machine) (length memory.now) (standing k.width self.now.count memory.now) place.old place.new result }
        ensures kept { KeptIfRefused result place.old place.new }
        ensures again { let k = M.OrderedRow.kind self.now.machine in Retaken k (M.Machine.rules self.now.machine) (standing k.width self.now.count memory.now) result }
    {
        write_list(&self.machine, &self.lines(memory)?, place)
    }
}
