// A tally of cases.
ghost use Rattle.std.specs.Prelude.{◌≤◌};

// How many cases there were, and how many of them agree.
#[derive(Clone, Copy, PartialEq, Eq, Debug)]
pub struct Tally {
    pub cases: usize,
    pub agreeing: usize,
    ghost within: { agreeing ≤ cases },
}

impl Tally {
    pub(crate) fn with(self, agrees: bool) -> Tally {
        let agreeing = usize::from(agrees);
        Tally {
            cases: self.cases.saturating_add(1),
            agreeing: self.agreeing.saturating_add(agreeing),
        }
    }
}
