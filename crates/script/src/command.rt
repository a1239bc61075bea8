// One line of a script.
ghost use Rattle.std.specs.Prelude.{◌≡◌, ◌≤◌, IfSome};
ghost use Rattle.script.specs.Lines.{digit_to, both, tens as tens_in, line_command};

use rules::Move;

#[derive(Clone, Copy, PartialEq, Eq, Debug)]
pub enum Command {
    // the move with this number, by which it is played and refused
    Play(usize),
    // the queue of this process is emptied
    Drain(u8),
}

// The digit, where it is at most max.
fn digit_to(byte: u8, max: u8) -> Option<u8>
    ensures value { result ≡ digit_to byte max }
    ensures small { IfSome result (λ d. d ≤ max) }
{
    byte.checked_sub(b'0').filter(|digit| *digit <= max)
}

// A number of two digits, the first not 0, below 64.
fn transition(tens: u8, ones: u8) -> Option<u8>
    ensures { result ≡ tens_in (both (digit_to tens 6) (digit_to ones 9)) }
{
    let tens = digit_to(tens, 6)?;
    let number = 10 * tens + digit_to(ones, 9)?;
    (tens > 0 && number < 64).then_some(number)
}

// What a line says, without its end; none if it cannot be read.
pub fn parse(line: &[u8]) -> Option<Command>
    ensures { result ≡ line_command line.now }
{
    let [letter, b' ', rest @ ..] = line else {
        return None;
    };
    let step = match (char::from(*letter), rest) {
        ('t', [ones]) => Move::Transition(usize::from(digit_to(*ones, 9)?)),
        ('t', [tens, ones]) => Move::Transition(usize::from(transition(*tens, *ones)?)),
        ('p', [process, b' ', variable]) => Move::Propagate {
            process: digit_to(*process, 3)?,
            variable: digit_to(*variable, 3)?,
        },
        ('d', [process]) => Move::Delete {
            process: digit_to(*process, 3)?,
        },
        ('u', [process]) => Move::Update {
            process: digit_to(*process, 3)?,
        },
        ('a', [process]) => return digit_to(*process, 3).map(Command::Drain),
        _ => return None,
    };
    Some(Command::Play(step.number()))
}
