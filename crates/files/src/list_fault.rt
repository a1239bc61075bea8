// Why a list file is refused.
ghost use Rattle.std.specs.Prelude.{◌≡◌};
ghost use Rattle.files.specs.ListFault.{line_inner, list_numbers};

use crate::refusal::Refusal;

#[derive(Clone, Copy, PartialEq, Eq, Debug)]
pub enum LineFault {
    // no line begins with the bytes up to and with this one
    Byte(usize),
    // the line ends early, after this many bytes
    Early(usize),
}

#[derive(Clone, Copy, PartialEq, Eq, Debug)]
pub enum ListFault {
    // the directory is wrong at this place of the file
    Directory(usize),
    // the line with this number is wrong
    Line(usize, LineFault),
}

impl LineFault {
    // The place in the line.
    pub fn inner(self) -> usize
        ensures { result ≡ line_inner self }
    {
        match self {
            LineFault::Byte(index) => index,
            LineFault::Early(length) => length,
        }
    }
}

impl From<ListFault> for Refusal {
    ghost from_gives = { λ fault r. r ≡ list_numbers fault };

    fn from(fault: ListFault) -> Refusal {
        match fault {
            ListFault::Directory(place) => Refusal::new(6, 2, place),
            ListFault::Line(number, fault) => Refusal {
                number: 7,
                part: 2,
                place: number,
                inner: fault.inner(),
            },
        }
    }
}
