// Cases in a text: what one of them says, and how many come out as expected.
ghost use Rattle.std.specs.Prelude.{Some};
ghost use Rattle.console.specs.Told.{tally_text};

use crate::tally::Tally;
use std::alloc::Global;
use std::fmt;

pub trait Case: Drop {
    // A case of which nothing is said yet.
    fn new(heap: Global) -> Self;

    // Adds what one line of the text says.
    fn add(&mut self, heap: Global, line: &str) -> anyhow::Result<()>;

    // Whether the case has the expected answers; prints where it has not.
    fn agrees(&self, rt: &HostRuntime) -> anyhow::Result<bool>;
}

impl fmt::Display for Tally {
    ghost output = { λ t. Some (tally_text t) };

    fn fmt<W: fmt::Write>(&self, f: &mut fmt::Formatter<W>) -> fmt::Result {
        let (cases, agreeing) = (self.cases, self.agreeing);
        write!(f, "{cases} cases, {agreeing} agree")
    }
}

// Runs the cases of a text, each of which an empty line ends.
pub fn run_cases<C: Case>(rt: &HostRuntime, text: &str) -> anyhow::Result<Tally> {
    let mut tally = Tally {
        cases: 0,
        agreeing: 0,
    };
    let mut case = C::new(rt.alloc());
    for line in text.lines() {
        if line.is_empty() {
            tally = tally.with(case.agrees(rt)?);
            case = C::new(rt.alloc());
        } else {
            case.add(rt.alloc(), line)?;
        }
    }
    Ok(tally)
}
