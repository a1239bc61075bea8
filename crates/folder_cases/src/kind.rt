// What a case asks for, and the machine that it runs over, as they are named.
use std::str::FromStr;

#[derive(Clone, Copy)]
pub enum Kind {
    // take the list in and judge it
    Check,
    // take the list in, grow as often as asked or until no line is added, and judge
    Grow,
    // answer the requests, one after another
    Session,
}

#[derive(Clone, Copy)]
pub enum Over {
    LoadBuffers,
    Plain,
}

// A word that names no kind or no machine.
#[derive(Clone, Copy, Debug)]
pub struct UnknownWord;

impl FromStr for Kind {
    type Err = UnknownWord;

    fn from_str(word: &str) -> Result<Kind, UnknownWord> {
        match word {
            "check" => Ok(Kind::Check),
            "grow" => Ok(Kind::Grow),
            "session" => Ok(Kind::Session),
            _ => Err(UnknownWord),
        }
    }
}

impl FromStr for Over {
    type Err = UnknownWord;

    fn from_str(word: &str) -> Result<Over, UnknownWord> {
        match word {
            "load" => Ok(Over::LoadBuffers),
            "plain" => Ok(Over::Plain),
            _ => Err(UnknownWord),
        }
    }
}
