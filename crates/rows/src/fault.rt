// Why a folder turns a call down.
ghost use Rattle.std.specs.Prelude.{◌≡◌};
ghost use Rattle.rows.specs.Fault.{folder_numbers};
ghost use Rattle.rows.specs.declared.fault.FolderFault.TheVariants.{List};

use files::list_fault::{LineFault, ListFault};
use files::refusal::Refusal;

#[derive(Clone, Copy)]
pub enum FolderFault {
    // memory, strip, witness or the place to fill is too short: the bytes needed
    Short(usize),
    // the list file is wrong
    List(ListFault),
    // the line entered is wrong
    Line(LineFault),
    // there is no line of this number
    NoLine(usize),
    // the row of this line is not storable
    Unstorable(usize),
    // this line is below a start
    StartInside(usize),
    // no room for new lines: the lines standing
    Full(usize),
    // something is missing and nothing storable is: the lines standing
    NothingStorable(usize),
}

impl From<ListFault> for FolderFault {
    ghost from_gives = { λ fault r. r ≡ List fault };

    fn from(fault: ListFault) -> FolderFault {
        FolderFault::List(fault)
    }
}

// The folder is part 3.
impl From<FolderFault> for Refusal {
    ghost from_gives = { λ fault r. r ≡ folder_numbers fault };

    fn from(fault: FolderFault) -> Refusal {
        match fault {
            FolderFault::Short(bytes) => Refusal::new(1, 3, bytes),
            FolderFault::List(fault) => Refusal::from(fault),
            FolderFault::Line(fault) => Refusal {
                number: 7,
                part: 3,
                place: 0,
                inner: fault.inner(),
            },
            FolderFault::NoLine(number) => Refusal::new(8, 3, number),
            FolderFault::Unstorable(line) => Refusal::new(9, 3, line),
            FolderFault::StartInside(line) => Refusal::new(10, 3, line),
            FolderFault::Full(lines) => Refusal::new(11, 3, lines),
            FolderFault::NothingStorable(lines) => Refusal::new(12, 3, lines),
        }
    }
}
