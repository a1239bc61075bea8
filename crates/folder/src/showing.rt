// Showing one row.
ghost use Rattle.std.specs.Prelude.{◌≡◌, length};
ghost use Rattle.rows.specs.Standing.{standing};
ghost use Rattle.folder.specs.Calls.{Showed};

use super::folder::Folder;
use machines::{Machine, OrderedRow};
use rows::FolderFault;

impl<M: Machine> Folder<M> {
    // Copies the row of a line to the front of a place.
    pub fn show(&self, memory: &[u8], number: usize, place: &mut [u8]) -> Result<(), FolderFault>
        ensures { let k = M.OrderedRow.kind self.now.machine in Showed k (M.Machine.rules self.now.machine) (length memory.now) number (standing k.width self.now.count memory.now) place.old place.new result }
    {
        let lines = self.lines(memory)?;
        let width = self.machine.row_len();
        if place.len() < width {
            return Err(FolderFault::Short(width));
        }
        let row = lines.row(number).ok_or(FolderFault::NoLine(number))?;
        if !self.machine.is_storable(row) {
            return Err(FolderFault::Unstorable(number));
        }
        place[0..width].copy_from_slice(row);
        Ok(())
    }
}
