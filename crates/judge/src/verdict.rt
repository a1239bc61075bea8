// What the judge answers.
ghost use Rattle.std.specs.Prelude.{Some};
ghost use Rattle.judge.specs.Told.{verdict_text};

use std::fmt;

#[derive(Clone, Copy, PartialEq, Eq, Debug)]
pub enum Verdict {
    // no run of the machine reaches a bad configuration
    Safe,
    // this line, the lowest such, is below a start
    Start(usize),
    // some bad configuration is uncovered
    Bad,
    // something uncovered steps to above this line, the lowest such, by the move with this number, the lowest such
    Leak(usize, u8),
}

impl fmt::Display for Verdict {
    ghost output = { λ v. Some (verdict_text v) };

    fn fmt<W: fmt::Write>(&self, f: &mut fmt::Formatter<W>) -> fmt::Result {
        match *self {
            Verdict::Safe => write!(f, "verdict safe"),
            Verdict::Start(line) => write!(f, "verdict start {line}"),
            Verdict::Bad => write!(f, "verdict bad"),
            Verdict::Leak(line, number) => write!(f, "verdict leak {line} {number}"),
        }
    }
}
