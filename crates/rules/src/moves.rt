// A move of one process, and its number.
ghost use Rattle.std.specs.Prelude.{◌≡◌};
ghost use Rattle.rules.specs.Moves.{number, move_of};

#[derive(Clone, Copy, PartialEq, Eq, Debug)]
pub enum Move {
    // the transition with this number
    Transition(usize),
    // the value of the variable in memory comes to the process
    Propagate { process: u8, variable: u8 },
    // the oldest message of the process goes
    Delete { process: u8 },
    // the oldest store of the process goes to memory
    Update { process: u8 },
}

impl Move {
    pub fn number(self) -> usize
        ensures { result ≡ number self }
    {
        match self {
            Move::Transition(number) => number,
            Move::Propagate { process, variable } => {
                64 + 4 * usize::from(process) + usize::from(variable)
            }
            Move::Delete { process } => 80 + usize::from(process),
            Move::Update { process } => 84 + usize::from(process),
        }
    }
}

// No move has this number.
#[derive(Clone, Copy, PartialEq, Eq, Debug)]
pub struct NoMove(pub usize);

impl TryFrom<usize> for Move {
    type Error = NoMove;

    ghost try_from_gives = { λ n r. r ≡ move_of n };

    fn try_from(number: usize) -> Result<Move, NoMove> {
        match number {
            0..=63 => Ok(Move::Transition(number)),
            64..=79 => Ok(Move::Propagate {
                process: ((number - 64) / 4) as u8,
                variable: ((number - 64) % 4) as u8,
            }),
            80..=83 => Ok(Move::Delete {
                process: (number - 80) as u8,
            }),
            84..=87 => Ok(Move::Update {
                process: (number - 84) as u8,
            }),
            _ => Err(NoMove(number)),
        }
    }
}
