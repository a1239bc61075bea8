// The three machines, as they are named.
ghost use Rattle.board.specs.Names.{Named};

use std::error::Error;
use std::fmt;
use std::str::FromStr;

#[derive(Clone, Copy, PartialEq, Eq, Debug)]
pub enum Machine {
    StoreBuffers,
    LoadBuffers,
    Plain,
}

// A word that names no machine.
#[derive(Clone, Copy, PartialEq, Eq, Debug)]
pub struct UnknownMachine;

impl FromStr for Machine {
    type Err = UnknownMachine;

    ghost from_str_gives = { Named };

    fn from_str(word: &str) -> Result<Machine, UnknownMachine> {
        match word {
            "store" => Ok(Machine::StoreBuffers),
            "load" => Ok(Machine::LoadBuffers),
            "plain" => Ok(Machine::Plain),
            _ => Err(UnknownMachine),
        }
    }
}

impl fmt::Display for UnknownMachine {
    fn fmt<W: fmt::Write>(&self, f: &mut fmt::Formatter<W>) -> fmt::Result {
        f.write_str("the machine is store, load or plain")
    }
}

impl Error for UnknownMachine {}
