// Striking one line.
ghost use Rattle.std.specs.Prelude.{◌≡◌, length};
ghost use Rattle.rows.specs.Standing.{standing};
ghost use Rattle.folder.specs.Calls.{ClosedUp, Struck};

use super::folder::Folder;
use machines::{Machine, OrderedRow};
use rows::FolderFault;

impl<M: Machine> Folder<M> {
    // Takes a line out: later rows move one place forward, and the bytes of the last one become zero.
    #[tactic(auto, using(crate::proofs::Counts::row_counts))]
    pub fn strike(&mut self, memory: &mut [u8], number: usize) -> Result<(), FolderFault>
        ensures machine { self.new.machine ≡ self.old.machine }
        ensures rows { let w = (M.OrderedRow.kind self.old.machine).width in Struck w (length memory.old) number (standing w self.old.count memory.old) result (standing w self.new.count memory.new) }
        ensures behind { ClosedUp (M.OrderedRow.kind self.old.machine).width self.new.count memory.old memory.new result }
    {
        let end = self.standing_bytes(memory)?;
        if number >= self.count {
            return Err(FolderFault::NoLine(number));
        }
        let width = self.machine.row_len();
        let from = number * width;
        let last = end - width;
        memory.copy_within(from + width..end, from);
        memory[last..end].fill(0);
        self.count -= 1;
        Ok(())
    }
}
