// Any list of calls, played one after another on one folder and its memory.
ghost use Rattle.std.specs.Prelude.{◌≡◌, min, [], length, take};
ghost use Rattle.rows.specs.Standing.{standing};
ghost use Rattle.ledger.specs.Ledger.{Called, Played, state};

use super::call::{Answer, Call, Deed};
use folder::Folder;
use machines::{Machine, OrderedRow};

// Plays one call, with as many of the bytes as it asks for and there are.
pub fn play<M: Machine>(
    folder: &mut Folder<M>,
    call: &Call,
    memory: &mut [u8],
    strip: &mut [u8],
    witness: &mut [u8],
) -> Answer
    ensures machine { folder.new.machine ≡ folder.old.machine }
    ensures called { let k = M.OrderedRow.kind folder.old.machine in Called k (M.Machine.rules folder.old.machine) (length memory.old) call.now result (state (standing k.width folder.old.count memory.old) strip.old witness.old) (state (standing k.width folder.new.count memory.new) strip.new witness.new) }
{
    // Each part is cut here: of a helper that hands out a part of a slice it is not proved what the slice ends as.
    let len = call.memory.min(memory.len());
    let memory = &mut memory[0..len];
    match call.deed {
        Deed::Enter(line) => Answer::Changed(folder.enter(memory, line)),
        Deed::TakeIn(file) => Answer::Changed(folder.take_in(memory, file)),
        Deed::Strike(number) => Answer::Changed(folder.strike(memory, number)),
        Deed::Grow => {
            let strip_len = call.strip.min(strip.len());
            Answer::Grew(folder.grow(memory, &mut strip[0..strip_len]))
        }
        Deed::Judge => {
            let strip_len = call.strip.min(strip.len());
            let witness_len = call.witness.min(witness.len());
            Answer::Ruled(folder.judge(
                memory,
                &mut strip[0..strip_len],
                &mut witness[0..witness_len],
            ))
        }
    }
}

// Opens a folder over a machine, plays the calls that there is a place for the answers of, and leaves an answer to each.
pub fn replay<M: Machine>(
    machine: M,
    calls: &[Call],
    memory: &mut [u8],
    strip: &mut [u8],
    witness: &mut [u8],
    answers: &mut [Answer],
) -> Folder<M>
    ensures machine { result.machine ≡ machine }
    ensures played { let k = M.OrderedRow.kind machine in let n = min (length calls.now) (length answers.old) in Played k (M.Machine.rules machine) (length memory.old) (state [] strip.old witness.old) (take n calls.now) (take n answers.new) (state (standing k.width result.count memory.new) strip.new witness.new) }
{
    let mut folder = Folder::open(machine);
    let count = calls.len().min(answers.len());
    // By index: after a loop over `answers.iter_mut().zip(calls)` only the length of the answers is known to a proof.
    for (i, call) in calls[..count].iter().enumerate() {
        answers[i] = play(&mut folder, call, memory, strip, witness);
    }
    folder
}
