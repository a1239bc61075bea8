// How far a check came, and how it is told.
ghost use Rattle.std.specs.Prelude.{Some};
ghost use Rattle.report.specs.Told.{outcome_text};

use files::refusal::Refusal;
use files::sizes::Sizes;
use judge::Verdict;
use std::fmt;

#[derive(Clone, Copy)]
pub enum Outcome {
    // the system file is refused
    NoSystem(Refusal),
    // the list file is refused
    NoList(Sizes, Refusal),
    // so many lines were taken in and judged
    Judged(Sizes, usize, Verdict),
}

// A line a stage, and a refusal in place of the line at which the check stops.
impl fmt::Display for Outcome {
    ghost output = { λ o. Some (outcome_text o) };

    fn fmt<W: fmt::Write>(&self, f: &mut fmt::Formatter<W>) -> fmt::Result {
        match *self {
            Outcome::NoSystem(refusal) => write!(f, "{refusal}"),
            Outcome::NoList(sizes, refusal) => write!(f, "{sizes}\n{refusal}"),
            Outcome::Judged(sizes, lines, verdict) => {
                write!(f, "{sizes}\nlines {lines}\n{verdict}")
            }
        }
    }
}
