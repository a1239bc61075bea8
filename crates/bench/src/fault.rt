// Why a bench turns a call down.
ghost use Rattle.std.specs.Prelude.{◌≡◌};
ghost use Rattle.bench.specs.Fault.{bench_numbers};

use files::refusal::Refusal;

#[derive(Clone, Copy, PartialEq, Eq, Debug)]
pub enum BenchFault {
    // too few message records: the records needed
    Short(usize),
    // this queued record has a variable or a value that the system has not
    Wrong(usize),
    // this line of a script cannot be read, or is not ended
    Unreadable(usize),
    // this move is not possible
    Impossible(usize),
    // a ninth message for this process
    Full(usize),
}

// The bench is part 4.
impl From<BenchFault> for Refusal {
    ghost from_gives = { λ fault r. r ≡ bench_numbers fault };

    fn from(fault: BenchFault) -> Refusal {
        match fault {
            BenchFault::Short(records) => Refusal::new(1, 4, records),
            BenchFault::Wrong(record) => Refusal::new(9, 4, record),
            BenchFault::Unreadable(line) => Refusal::new(13, 4, line),
            BenchFault::Impossible(number) => Refusal::new(14, 4, number),
            BenchFault::Full(process) => Refusal::new(15, 4, process),
        }
    }
}
