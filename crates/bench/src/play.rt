// One move.
ghost use Rattle.std.specs.Prelude.{◌≡◌, ◌*◌, ◌<◌, ◌≤◌, length, take, IfSome};
ghost use Rattle.bench.specs.Deeds.{deed_of};
ghost use Rattle.files.specs.Program.{program};
ghost use Rattle.bench.specs.Play.{Came, played};
ghost use Rattle.rules.specs.Rulebook.{room};
ghost use Rattle.bench.specs.Table.{table_of, Sized};
ghost use Rattle.bench.specs.Steps.{Stepped};

use crate::bench::Bench;
use crate::decode::deed_of;
use crate::fault::BenchFault;
use crate::perform::perform;
use rules::{Deed, Rules};

// Where the places of a process begin.
pub(crate) fn places_at<R: Rules>(process: usize) -> usize
    requires { process ≤ 4 }
    ensures value { result ≡ room R.Rules.book * process }
    ensures small { result ≤ 32 }
{
    R::room() * process
}

impl<R: Rules> Bench<R> {
    // The deed of a move from where the processes are.
    fn deed(&self, number: usize) -> Option<Deed>
        ensures value { result ≡ deed_of (program self.now.system) (take (length (program self.now.system).states) self.now.states) number }
        ensures process { IfSome result (λ d. d.process < length (program self.now.system).states) }
        ensures few { length (program self.now.system).states ≤ 4 }
    {
        let processes = usize::from(self.system.sizes().processes);
        deed_of(&self.system, &self.states[0..processes], number)
    }

    // Makes a move, or says why not. What that means on the machine is proved once of this call, and not at each of its exits.
    fn make(&mut self, messages: &mut [R::Record], number: usize) -> Result<(), BenchFault>
        ensures came { Came (played R.Record.Message.kind R.Rules.book (program self.old.system) (table_of self.old messages.old) number) result (table_of self.new messages.new) }
        ensures system { program self.new.system ≡ program self.old.system }
        ensures sized { Sized self.old }
    {
        self.ready(messages)?;
        let deed = self.deed(number).ok_or(BenchFault::Impossible(number))?;
        let variables = usize::from(self.system.sizes().variables);
        let process = deed.process;
        let at = places_at::<R>(process);
        let end = at + R::room();
        let length = perform::<R>(
            &mut messages[at..end],
            self.lengths[process],
            &mut self.memory[0..variables],
            deed.act,
        )
        .map_err(|hindrance| hindrance.fault(process, number))?;
        self.lengths[process] = length;
        self.states[process] = deed.state;
        Ok(())
    }

    // One move. It is made exactly where the machine has such a step with at most eight messages pending, and leads where the
    // machine leads; a refusal leaves all as it was.
    pub fn play(&mut self, messages: &mut [R::Record], number: usize) -> Result<(), BenchFault>
        ensures came { Came (played R.Record.Message.kind R.Rules.book (program self.old.system) (table_of self.old messages.old) number) result (table_of self.new messages.new) }
        ensures stepped { Stepped R.Record.Message.kind R.Rules.book (program self.old.system) (table_of self.old messages.old) number result (table_of self.new messages.new) }
        ensures system { program self.new.system ≡ program self.old.system }
    {
        self.make(messages, number)
    }
}
