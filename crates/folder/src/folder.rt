// A folder: a machine and a count of lines, whose rows lie packed in memory that is lent with each call.
ghost use Rattle.std.specs.Prelude.{◌≡◌, ◌*◌, ◌≤◌, length};
ghost use Rattle.rows.specs.Checks.{Answered, has_room, holds_rows, places};
ghost use Rattle.rows.specs.Standing.{rows_of, standing};

use machines::{Machine, OrderedRow};
use rows::{FolderFault, Lines, MOST_LINES};

#[derive(Drop)]
pub struct Folder<M> {
    pub(crate) machine: M,
    pub(crate) count: usize,
    ghost few: { count ≤ 1024 },
}

impl<M> Folder<M> {
    // An empty folder.
    pub fn open(machine: M) -> Folder<M>
        ensures machine { result.machine ≡ machine }
        ensures empty { result.count ≡ 0 }
    {
        Folder { machine, count: 0 }
    }

    pub fn machine(&self) -> &M
        ensures { result.now ≡ self.now.machine }
    {
        &self.machine
    }

    // How many lines stand.
    pub fn count(&self) -> usize
        ensures { result ≡ self.now.count }
    {
        self.count
    }
}

impl<M: Machine> Folder<M> {
    // The bytes that the standing rows take, which memory has to hold.
    #[tactic(auto, using(crate::proofs::Counts::row_counts))]
    pub(crate) fn standing_bytes(&self, memory: &[u8]) -> Result<usize, FolderFault>
        ensures answer { let w = (M.OrderedRow.kind self.now.machine).width in Answered (holds_rows w (length (standing w self.now.count memory.now)) (length memory.now)) (λ bytes. (bytes ≡ self.now.count * w) × (bytes ≤ 61440)) result }
        ensures placed { let w = (M.OrderedRow.kind self.now.machine).width in (self.now.count * w ≤ length memory.now → self.now.count ≤ places w (length memory.now)) }
    {
        let needed = self.count * self.machine.row_len();
        if memory.len() < needed {
            return Err(FolderFault::Short(needed));
        }
        Ok(needed)
    }

    // The standing rows, which memory has to hold.
    #[tactic(auto, using(crate::proofs::Counts::row_counts))]
    pub(crate) fn lines<'a>(&self, memory: &'a [u8]) -> Result<Lines<'a>, FolderFault>
        ensures { let w = (M.OrderedRow.kind self.now.machine).width in let ls = standing w self.now.count memory.now in Answered (holds_rows w (length ls) (length memory.now)) (λ lines. (rows_of lines ≡ ls) × (length lines.bytes.now ≡ length memory.now)) result }
    {
        self.standing_bytes(memory)?;
        Ok(Lines {
            bytes: memory,
            width: self.machine.row_len(),
            count: self.count,
        })
    }

    // Refuses where memory has no places for so many lines more.
    #[tactic(auto, using(crate::proofs::Counts::row_counts))]
    pub(crate) fn check_room(&self, memory: &[u8], more: usize) -> Result<(), FolderFault>
        requires { more ≤ 1024 }
        ensures { let w = (M.OrderedRow.kind self.now.machine).width in Answered (has_room w (length memory.now) (length (standing w self.now.count memory.now)) more) (λ _. Unit {0}) result }
    {
        let places = MOST_LINES.min(memory.len() / self.machine.row_len());
        if self.count + more > places {
            return Err(FolderFault::Full(self.count));
        }
        Ok(())
    }
}
