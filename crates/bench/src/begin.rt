// The start of the machine.
ghost use Rattle.std.specs.Prelude.{◌≡◌, length, replicate, Ok};
ghost use Rattle.files.specs.Program.{program};
ghost use Rattle.machines.specs.Config.{start_of};
ghost use Rattle.bench.specs.Play.{Came, begun};
ghost use Rattle.bench.specs.Table.{table_of, config_of, queues};

use crate::bench::Bench;
use crate::fault::BenchFault;
use queue::Message;
use rules::Rules;

// Makes every place zero.
fn clear<M: Message + Copy>(places: &mut [M])
    ensures { places.new ≡ replicate (length places.old) M.Message.kind.zero }
{
    // `fill` asks for a clone that cannot fail, which no bound gives a type parameter.
    let zero = M::zero();
    places.fill_with(|| zero);
}

impl<R: Rules> Bench<R> {
    // Sets the machine at its start, and the places of its processes to zero; what lies behind them stays.
    pub fn begin(&mut self, messages: &mut [R::Record]) -> Result<(), BenchFault>
        ensures came { Came (begun R.Record.Message.kind R.Rules.book (program self.old.system) (table_of self.old messages.old)) result (table_of self.new messages.new) }
        ensures start { result ≡ Ok tt → config_of R.Record.Message.kind R.Rules.book (table_of self.new messages.new) ≡ start_of (program self.old.system) (queues R.Rules.book (length (program self.old.system).states)) }
        ensures system { program self.new.system ≡ program self.old.system }
    {
        let needed = self.needed();
        if messages.len() < needed {
            return Err(BenchFault::Short(needed));
        }
        clear(&mut messages[0..needed]);
        self.states = [0; 4];
        self.memory = [0; 4];
        self.lengths = [0; 4];
        Ok(())
    }
}
