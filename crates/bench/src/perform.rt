// One process acts on memory and on its own queue.
ghost use Rattle.std.specs.Prelude.{◌≡◌, ◌≤◌, length, IfOk};
ghost use Rattle.bench.specs.Perform.{performed, Did, fault_of};
ghost use Rattle.rules.specs.Rulebook.{written};

use crate::fault::BenchFault;
use queue::Queue;
use rules::{Act, Change, Rules, Write};

// Why an act is not done.
#[derive(Clone, Copy)]
pub enum Hindrance {
    Impossible,
    Full,
}

impl Hindrance {
    // What the bench says of a move that is hindered.
    pub(crate) fn fault(self, process: usize, number: usize) -> BenchFault
        ensures { result ≡ fault_of process number self }
    {
        match self {
            Hindrance::Impossible => BenchFault::Impossible(number),
            Hindrance::Full => BenchFault::Full(process),
        }
    }
}

// Writes a value where there is such a variable.
fn write(memory: &mut [u8], write: Option<Write>)
    ensures { memory.new ≡ written write memory.old }
{
    if let Some(Write { variable, value }) = write {
        let at = usize::from(variable);
        if at < memory.len() {
            memory[at] = value;
        }
    }
}

// The length of the queue afterwards; what hinders it leaves all as it was.
pub(crate) fn perform<R: Rules>(
    places: &mut [R::Record],
    count: usize,
    memory: &mut [u8],
    act: Act,
) -> Result<usize, Hindrance>
    ensures did { Did (performed R.Record.Message.kind R.Rules.book act count memory.old places.old) memory.old places.old result memory.new places.new }
    ensures short { count ≤ 8 → length places.old ≤ 8 → IfOk result (λ n. n ≤ 8) }
{
    let mut queue = Queue { places, count };
    let effect = R::effect(act, memory, &queue).ok_or(Hindrance::Impossible)?;
    match effect.change {
        Change::Keep => {}
        Change::Join(message) => queue.push(message).map_err(|_| Hindrance::Full)?,
        Change::Leave => {
            let _ = queue.pop();
        }
    }
    write(memory, effect.write);
    Ok(queue.count)
}
