// Grows list.bin over system.bin until nothing is missing, a start is inside or no line can be added, and writes the list
// to completed.bin; in this folder, or in the one that is named.
#![tactic(auto)]

mod growing;

use anyhow::anyhow;
use console::{folder_named, read};
use files::system::System;
use growing::{grow_all, whole};
use ledger::{Answer, Deed, replay};
use load_buffers::LoadBuffers;
use machines::OrderedRow;
use report::{Outcome, check};
use rows::{LONGEST_LINE, MOST_LINES};
use std::fs;

// the longest list file: 1,024 lines of 59 bytes, behind their directory
const LONGEST_FILE: usize = 2 + (4 + LONGEST_LINE) * MOST_LINES;

// The list that was taken in, with the lines that it grew by, as a list file.
fn completed(rt: &HostRuntime, system: System, list: &[u8]) -> anyhow::Result<Vec<u8>> {
    let mut memory = vec![in rt.alloc(); 0; MOST_LINES * <LoadBuffers as OrderedRow>::WIDTH]?;
    let calls = [whole(Deed::TakeIn(list))];
    let mut answers = [Answer::Changed(Ok(()))];
    let mut folder = replay(
        LoadBuffers::new(system),
        &calls,
        &mut memory,
        &mut [],
        &mut [],
        &mut answers,
    );
    if let Answer::Changed(Err(_)) = answers[0] {
        return Err(anyhow!("the list is not taken in"));
    }
    grow_all(rt, &mut folder, &mut memory)?;
    let mut file = vec![in rt.alloc(); 0; LONGEST_FILE]?;
    let Ok(size) = folder.write_out(&memory, &mut file) else {
        return Err(anyhow!("the list is not written out"));
    };
    file.truncate(size);
    Ok(file)
}

fn run(rt: &HostRuntime) -> anyhow::Result<()> {
    let folder = folder_named(rt, 1)?;
    let system = read(rt, folder.as_str(), "system.bin")?;
    let list = read(rt, folder.as_str(), "list.bin")?;
    let outcome = check(rt.alloc(), system.as_slice(), list.as_slice())?;
    println!(rt; "{outcome}")?;
    let Outcome::Judged(_, _, _) = outcome else {
        return Ok(());
    };
    let Ok(drawing) = System::read(rt.alloc(), system.as_slice()) else {
        return Err(anyhow!("out of memory"));
    };
    let file = completed(rt, drawing, list.as_slice())?;
    let path = format!(in rt.alloc(); "{folder}/completed.bin")?;
    fs::write(rt, path.as_str(), file.as_slice())?;
    println!(rt; "wrote completed.bin")?;
    let outcome = check(rt.alloc(), system.as_slice(), file.as_slice())?;
    println!(rt; "{outcome}")?;
    Ok(())
}

fn main(rt: HostRuntime) -> anyhow::Result<()> {
    run(&rt)
}
