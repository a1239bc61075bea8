// A case: a machine, a system file, the calls, and what they are expected to print.
use crate::session::session;
use anyhow::anyhow;
use board::{Machine, Record};
use console::{Case, decode};
use files::system::System;
use queue::{LoadMessage, StoreMessage};
use rules::{LoadBuffers, Plain, StoreBuffers};
use std::alloc::Global;

#[derive(Drop)]
pub struct BenchCase {
    name: String,
    machine: String,
    system: Vec<u8>,
    // one call to a line
    calls: String,
    expected: String,
}

impl BenchCase {
    // What the case prints.
    fn printed(&self, heap: Global) -> anyhow::Result<String> {
        let Ok(system) = System::read(heap, self.system.as_slice()) else {
            return Err(anyhow!("a system that cannot be read"));
        };
        let calls = self.calls.as_str();
        let mut stores = [StoreMessage::of(true, 0, 0); 64];
        let mut loads = [LoadMessage::of(false, 0, 0); 64];
        let Ok(machine) = self.machine.as_str().parse::<Machine>() else {
            return Err(anyhow!("an unknown machine"));
        };
        match machine {
            Machine::StoreBuffers => session(heap, StoreBuffers, system, &mut stores, calls),
            Machine::LoadBuffers => session(heap, LoadBuffers, system, &mut loads, calls),
            Machine::Plain => session(heap, Plain, system, &mut loads, calls),
        }
    }
}

impl Case for BenchCase {
    fn new(heap: Global) -> BenchCase {
        BenchCase {
            name: String::new(heap),
            machine: String::new(heap),
            system: Vec::new(heap),
            calls: String::new(heap),
            expected: String::new(heap),
        }
    }

    fn add(&mut self, heap: Global, line: &str) -> anyhow::Result<()> {
        let Some((word, rest)) = line.split_once(' ') else {
            return Err(anyhow!("a line with no word and no rest"));
        };
        match word {
            "case" => self.name = String::from_str(heap, rest)?,
            "machine" => self.machine = String::from_str(heap, rest)?,
            "system" => self.system = decode(heap, rest)?,
            "call" => writeln!(self.calls, "{rest}")?,
            ">" => writeln!(self.expected, "{rest}")?,
            _ => return Err(anyhow!("an unknown word")),
        }
        Ok(())
    }

    fn agrees(&self, rt: &HostRuntime) -> anyhow::Result<bool> {
        let text = self.printed(rt.alloc())?;
        if text.as_str() == self.expected.as_str() {
            return Ok(true);
        }
        println!(rt; "{} differs:\n{text}", self.name)?;
        Ok(false)
    }
}
