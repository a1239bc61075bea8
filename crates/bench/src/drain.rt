// Empties the queue of a process.
ghost use Rattle.std.specs.Prelude.{◌≡◌, [], Ok};
ghost use Rattle.files.specs.Program.{program};
ghost use Rattle.bench.specs.Play.{Came, repeated, drained};
ghost use Rattle.bench.specs.Table.{table_of, queue_of, Sized};

use crate::bench::Bench;
use crate::fault::BenchFault;
use rules::Rules;

impl<R: Rules> Bench<R> {
    // The same move so many times, until one is refused.
    fn repeat(
        &mut self,
        messages: &mut [R::Record],
        number: usize,
        times: usize,
    ) -> Result<(), BenchFault>
        ensures came { Came (repeated R.Record.Message.kind R.Rules.book (program self.old.system) number times (table_of self.old messages.old)) result (table_of self.new messages.new) }
        ensures system { program self.new.system ≡ program self.old.system }
    {
        for _i in 0..times {
            self.play(messages, number)?;
        }
        Ok(())
    }

    // Takes the oldest message of a process as often as it has messages. That the queue is empty then is proved once of this call.
    fn take_all(&mut self, messages: &mut [R::Record], process: u8) -> Result<(), BenchFault>
        ensures came { Came (drained R.Record.Message.kind R.Rules.book (program self.old.system) (table_of self.old messages.old) process) result (table_of self.new messages.new) }
        ensures system { program self.new.system ≡ program self.old.system }
        ensures sized { Sized self.old }
    {
        self.ready(messages)?;
        let at = usize::from(process);
        if at >= usize::from(self.system.sizes().processes) {
            // no move has a number from 88 on: this one stands in the refusal alone
            return Err(BenchFault::Impossible(88 + at));
        }
        let times = self.lengths[at].min(R::room());
        self.repeat(messages, R::emptying(process), times)
    }

    // Takes the oldest message of a process until its queue is empty.
    pub fn drain(&mut self, messages: &mut [R::Record], process: u8) -> Result<(), BenchFault>
        ensures came { Came (drained R.Record.Message.kind R.Rules.book (program self.old.system) (table_of self.old messages.old) process) result (table_of self.new messages.new) }
        ensures empty { result ≡ Ok tt → queue_of R.Record.Message.kind R.Rules.book (table_of self.new messages.new) process ≡ [] }
        ensures system { program self.new.system ≡ program self.old.system }
    {
        self.take_all(messages, process)
    }
}
