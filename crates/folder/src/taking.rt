// Taking a list file in.
ghost use Rattle.std.specs.Prelude.{◌≡◌, ◌+◌, ◌*◌, ◌<◌, ◌≤◌, length, None};
ghost use Rattle.files.specs.Bytes.{two};
ghost use Rattle.files.specs.Directory.{dir_fault};
ghost use Rattle.rows.specs.Checks.{AllLines};
ghost use Rattle.rows.specs.Standing.{standing};
ghost use Rattle.folder.specs.Answers.{TakeInAnswer};
ghost use Rattle.folder.specs.Calls.{KeptBehind, Rewrites, TakenIn};
ghost use Rattle.folder.specs.Taking.{FaultAt, FirstFault, LinesAdded};

use super::folder::Folder;
use files::list::ListReader;
use files::list_fault::ListFault;
use machines::{Machine, OrderedRow};
use rows::FolderFault;

// The fault of a line, if it is a wrong one.
fn fault_at<M: Machine>(machine: &M, list: &ListReader, number: usize) -> Option<ListFault>
    requires { number < list.now.count }
    ensures { FaultAt (M.Machine.rules machine.now) list.now.bytes.now number result }
{
    let line = list.line(number)?;
    let fault = machine.line_fault(line.bytes)?;
    Some(ListFault::Line(number, fault))
}

// The fault of the lowest wrong line.
fn first_fault<M: Machine>(machine: &M, list: &ListReader) -> Option<ListFault>
    ensures { FirstFault (M.Machine.rules machine.now) list.now.bytes.now list.now.count result }
{
    (0..list.count()).find_map(|number| fault_at(machine, list, number))
}

// Writes the rows of the lines one after another, behind those that stand.
#[tactic(auto, using(crate::proofs::Counts::row_counts))]
fn write_rows<M: Machine>(machine: &M, list: &ListReader, memory: &mut [u8], standing: usize)
    requires lines { AllLines (M.Machine.rules machine.now) list.now.bytes.now list.now.count }
    requires few { standing + list.now.count ≤ 1024 }
    requires room { (standing + list.now.count) * (M.OrderedRow.kind machine.now).width ≤ length memory.old }
    ensures { LinesAdded (M.OrderedRow.kind machine.now) (M.Machine.rules machine.now) list.now.bytes.now standing list.now.count memory.old memory.new }
{
    let width = machine.row_len();
    // The reader hands a line out by its number, and the number says where its row goes.
    for i in 0..list.count() {
        if let Some(line) = list.line(i) {
            let at = (standing + i) * width;
            machine.read_line(line.bytes, &mut memory[at..at + width]);
        }
    }
}

impl<M: Machine> Folder<M> {
    // Adds the lines of a list file in order, all or none. A file taken into an empty folder is the one
    // that is written from its rows.
    #[tactic(auto, using(crate::proofs::Counts::row_counts))]
    pub fn take_in(&mut self, memory: &mut [u8], file: &[u8]) -> Result<(), FolderFault>
        ensures machine { self.new.machine ≡ self.old.machine }
        ensures answer { TakeInAnswer (M.OrderedRow.kind self.old.machine) (M.Machine.rules self.old.machine) self.old.count self.new.count memory.old memory.new file.now result }
        ensures rows { let k = M.OrderedRow.kind self.old.machine in TakenIn k (M.Machine.rules self.old.machine) (length memory.old) file.now (standing k.width self.old.count memory.old) result (standing k.width self.new.count memory.new) }
        ensures behind { KeptBehind (M.OrderedRow.kind self.old.machine).width self.new.count memory.old memory.new result }
        ensures again { let k = M.OrderedRow.kind self.old.machine in Rewrites (M.Machine.rules self.old.machine) file.now (standing k.width self.old.count memory.old) result (standing k.width self.new.count memory.new) }
    {
        self.standing_bytes(memory)?;
        let list = ListReader::open(file)?;
        // The search hands the fault out as what it found, so there is nothing here for a `?`.
        if let Some(fault) = first_fault(&self.machine, &list) {
            return Err(FolderFault::List(fault));
        }
        self.check_room(memory, list.count())?;
        write_rows(&self.machine, &list, memory, self.count);
        self.count += list.count();
        Ok(())
    }
}
