// Plays script.bin on a machine of system.bin, in this folder or in the one that is named: `store`, `load` or `plain`, and
// the folder.
#![tactic(auto)]

use anyhow::anyhow;
use bench::{Bench, Look};
use board::{Held, Machine, Queues, Record, UnknownMachine};
use console::{folder_named, read};
use files::refusal::Refusal;
use files::system::System;
use files::system_fault::SystemFault;
use queue::{LoadMessage, StoreMessage};
use rules::{LoadBuffers, Plain, Rules, StoreBuffers};
use script::run_script;
use std::alloc::{AllocError, Global};
use std::env;

// The first lines of a script, which were played.
fn write_played(out: &mut String, script: &[u8], lines: usize) -> Result<(), AllocError> {
    for line in script.split_inclusive(|byte| *byte == b'\n').take(lines) {
        out.push_str("played ")?;
        for byte in line {
            out.push(char::from(*byte))?;
        }
    }
    Ok(())
}

// What the bench holds, with the messages in words.
fn write_held<M: Record>(out: &mut String, look: Look, records: &[M]) -> Result<(), AllocError> {
    let queues = Queues {
        look,
        records,
        in_words: true,
    };
    write!(out, "{}{queues}", Held(look))
}

// Plays the script from the start, and says what was played, where it stopped and what the bench holds then.
fn play_on<M: Record + Copy, R: Rules<Record = M> + Drop>(
    heap: Global,
    rules: R,
    system: System,
    records: &mut [M],
    script: &[u8],
) -> Result<String, AllocError> {
    let mut out = String::new(heap);
    let mut bench = Bench::new(rules, system);
    match run_script(&mut bench, records, script) {
        Ok(lines) => write_played(&mut out, script, lines)?,
        Err(stop) => {
            write_played(&mut out, script, stop.line)?;
            writeln!(out, "{}", Refusal::from(stop.fault))?;
        }
    }
    write_held(&mut out, bench.look(), records)?;
    Ok(out)
}

// What is printed for two files.
fn play(heap: Global, machine: &str, system: &[u8], script: &[u8]) -> anyhow::Result<String> {
    let system = match System::read(heap, system) {
        Ok(system) => system,
        Err(SystemFault::Memory) => return Err(anyhow!("out of memory")),
        Err(fault) => return Ok(format!(in heap; "{}\n", Refusal::from(fault))?),
    };
    let mut stores = [StoreMessage::of(true, 0, 0); 32];
    let mut loads = [LoadMessage::of(false, 0, 0); 32];
    let text = match machine.parse::<Machine>()? {
        Machine::StoreBuffers => play_on(heap, StoreBuffers, system, &mut stores, script)?,
        Machine::LoadBuffers => play_on(heap, LoadBuffers, system, &mut loads, script)?,
        Machine::Plain => play_on(heap, Plain, system, &mut loads, script)?,
    };
    Ok(text)
}

fn run(rt: &HostRuntime) -> anyhow::Result<()> {
    let Some(machine) = env::args(rt)?.nth(1) else {
        return Err(UnknownMachine.into());
    };
    let folder = folder_named(rt, 2)?;
    let system = read(rt, folder.as_str(), "system.bin")?;
    let script = read(rt, folder.as_str(), "script.bin")?;
    let text = play(
        rt.alloc(),
        machine.as_str(),
        system.as_slice(),
        script.as_slice(),
    )?;
    print!(rt; "{text}")?;
    Ok(())
}

fn main(rt: HostRuntime) -> anyhow::Result<()> {
    run(&rt)
}
