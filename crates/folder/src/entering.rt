// Entering one line.
ghost use Rattle.std.specs.Prelude.{◌≡◌, length};
ghost use Rattle.rows.specs.Standing.{standing};
ghost use Rattle.folder.specs.Calls.{Entered, KeptBehind};

use super::folder::Folder;
use machines::{Machine, OrderedRow};
use rows::FolderFault;

impl<M: Machine> Folder<M> {
    // Adds a line at the end.
    #[tactic(auto, using(crate::proofs::Counts::row_counts))]
    pub fn enter(&mut self, memory: &mut [u8], line: &[u8]) -> Result<(), FolderFault>
        ensures machine { self.new.machine ≡ self.old.machine }
        ensures rows { let k = M.OrderedRow.kind self.old.machine in Entered k (M.Machine.rules self.old.machine) (length memory.old) line.now (standing k.width self.old.count memory.old) result (standing k.width self.new.count memory.new) }
        ensures behind { KeptBehind (M.OrderedRow.kind self.old.machine).width self.new.count memory.old memory.new result }
    {
        let end = self.standing_bytes(memory)?;
        // The machine hands the fault out as its answer, so there is nothing here for a `?`.
        if let Some(fault) = self.machine.line_fault(line) {
            return Err(FolderFault::Line(fault));
        }
        self.check_room(memory, 1)?;
        let width = self.machine.row_len();
        self.machine.read_line(line, &mut memory[end..end + width]);
        self.count += 1;
        Ok(())
    }
}
