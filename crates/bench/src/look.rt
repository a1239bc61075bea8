// A bench at its start, and what it holds.
ghost use Rattle.std.specs.Prelude.{◌≡◌, List, length};
ghost use Rattle.files.specs.Program.{program};
ghost use Rattle.machines.specs.Config.{start_of};
ghost use Rattle.bench.specs.Table.{states_of, memory_of, lengths_of, Sized, table_of, config_of, queues};

use crate::bench::Bench;
use files::system::System;
use rules::Rules;

// States, memory and queue lengths.
#[derive(Clone, Copy)]
pub struct Look<'a> {
    pub states: &'a [u8],
    pub memory: &'a [u8],
    pub lengths: &'a [usize],
}

impl<R: Rules> Bench<R> {
    // A bench at the start of the machine, whatever records are lent to it.
    pub fn new(rules: R, system: System) -> Bench<R>
        ensures system { result.system ≡ system }
        ensures start { (ms : List R.Record) → config_of R.Record.Message.kind R.Rules.book (table_of result ms) ≡ start_of (program system) (queues R.Rules.book (length (program system).states)) }
    {
        Bench {
            rules,
            system,
            states: [0; 4],
            memory: [0; 4],
            lengths: [0; 4],
        }
    }

    pub fn look(&self) -> Look<'_>
        ensures states { result.states.now ≡ states_of self.now }
        ensures memory { result.memory.now ≡ memory_of self.now }
        ensures lengths { result.lengths.now ≡ lengths_of self.now }
        ensures sized { Sized self.now }
    {
        let sizes = self.system.sizes();
        let processes = usize::from(sizes.processes);
        Look {
            states: &self.states[0..processes],
            memory: &self.memory[0..usize::from(sizes.variables)],
            lengths: &self.lengths[0..processes],
        }
    }
}
