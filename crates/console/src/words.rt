// The words of a line.
ghost use Rattle.std.specs.Prelude.{◌≡◌};
ghost use Rattle.std.specs.Str.Parse.{ParsesUnsigned};
ghost use Rattle.console.specs.Words.{first_word, other_words};

#[derive(Clone, Copy)]
pub struct Words<'a> {
    // what was not yet read
    pub rest: &'a str,
}

impl<'a> Words<'a> {
    // The word up to the next blank, which goes with it; the empty one past the last.
    pub fn word(&mut self) -> &'a str
        ensures word { result.now ≡ first_word self.old.rest.now }
        ensures rest { self.new.rest.now ≡ other_words self.old.rest.now }
    {
        match self.rest.split_once(' ') {
            Some((word, rest)) => {
                self.rest = rest;
                word
            }
            None => {
                let word = self.rest;
                self.rest = "";
                word
            }
        }
    }

    // The next word as a number: decimal digits, with a plus in front or none.
    pub fn number(&mut self) -> anyhow::Result<usize>
        ensures number { ParsesUnsigned 64 10 (first_word self.old.rest.now) result }
        ensures rest { self.new.rest.now ≡ other_words self.old.rest.now }
    {
        Ok(self.word().parse::<usize>()?)
    }
}
