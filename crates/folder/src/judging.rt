// Judging the standing rows.
ghost use Rattle.std.specs.Prelude.{◌≡◌, length};
ghost use Rattle.rows.specs.Checks.{wiped};
ghost use Rattle.rows.specs.Standing.{standing};
ghost use Rattle.judge.specs.Verdicts.{SafeHolds, WitnessLeft};
ghost use Rattle.folder.specs.Answers.{JudgeAnswer};
ghost use Rattle.folder.specs.Calls.{Ruled};

use super::folder::Folder;
use judge::{Verdict, judge_lines};
use machines::{Machine, OrderedRow};
use rows::FolderFault;

impl<M: Machine> Folder<M> {
    // Judges the standing rows. The strip is all zero after; the witness holds an uncovered row at bad and leak.
    pub fn judge(
        &self,
        memory: &[u8],
        strip: &mut [u8],
        witness: &mut [u8],
    ) -> Result<Verdict, FolderFault>
        ensures answer { JudgeAnswer (M.OrderedRow.kind self.now.machine) (M.Machine.rules self.now.machine) self.now.count memory.now strip.old strip.new witness.old witness.new result }
        ensures ruled { let k = M.OrderedRow.kind self.now.machine in Ruled k (M.Machine.rules self.now.machine) (length memory.now) (length strip.old) (length witness.old) (standing k.width self.now.count memory.now) result }
        ensures strip { strip.new ≡ wiped result strip.old }
        ensures witness { let k = M.OrderedRow.kind self.now.machine in WitnessLeft k (M.Machine.rules self.now.machine) (standing k.width self.now.count memory.now) result witness.old witness.new }
        ensures safe { SafeHolds (M.Machine.rules self.now.machine) result }
    {
        judge_lines(&self.machine, &self.lines(memory)?, strip, witness)
    }
}
