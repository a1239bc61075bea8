// Judges a list file against a system file.
ghost use Rattle.std.specs.Prelude.{◌≡◌, length, IfOk};
ghost use Rattle.files.specs.Program.{program};
ghost use Rattle.report.specs.Checked.{Checked, ListJudged};

use crate::outcome::Outcome;
use files::refusal::Refusal;
use files::system::System;
use files::system_fault::SystemFault;
use folder::Folder;
use judge::Verdict;
use load_buffers::LoadBuffers;
use machines::OrderedRow;
use rows::MOST_LINES;
use std::alloc::{AllocError, Global};

// Takes the list into an empty folder over the system's load-buffer machine, and judges it: the count of lines, and the
// verdict. Memory holds every list, and rows that were taken in are storable, so the judge does not refuse.
fn judge_list(system: System, memory: &mut [u8], list: &[u8]) -> Result<(usize, Verdict), Refusal>
    requires { length memory.old ≡ 49152 }
    ensures { ListJudged (program system) list.now result }
{
    let mut strip = [0; <LoadBuffers as OrderedRow>::WIDTH];
    let mut witness = [0; <LoadBuffers as OrderedRow>::WIDTH];
    let mut folder = Folder::open(LoadBuffers::new(system));
    folder.take_in(memory, list)?;
    let lines = folder.count();
    match folder.judge(memory, &mut strip, &mut witness) {
        Ok(verdict) => Ok((lines, verdict)),
        Err(_) => unreachable(),
    }
}

// Reads the system, and judges the list against it.
pub fn check(heap: Global, system: &[u8], list: &[u8]) -> Result<Outcome, AllocError>
    ensures { IfOk result (Checked system.now list.now) }
{
    let system = match System::read(heap, system) {
        Ok(system) => system,
        Err(SystemFault::Memory) => return Err(AllocError),
        Err(fault) => return Ok(Outcome::NoSystem(fault.into())),
    };
    let sizes = system.sizes();
    let mut memory = vec![in heap; 0; MOST_LINES * <LoadBuffers as OrderedRow>::WIDTH]?;
    match judge_list(system, &mut memory, list) {
        Ok((lines, verdict)) => Ok(Outcome::Judged(sizes, lines, verdict)),
        Err(refusal) => Ok(Outcome::NoList(sizes, refusal)),
    }
}
