// The four numbers by which a refusal is told.
ghost use Rattle.std.specs.Prelude.{◌≡◌, Some};
ghost use Rattle.files.specs.Refusal.{refused};
ghost use Rattle.files.specs.Told.{refusal_text};

use std::fmt;

// The published form of a refusal, as docs/REFUSALS.md lists it. The kinds of refusals are the enums of faults, each of which
// converts into it; here they stay numbers, since the contracts promise those.
#[derive(Clone, Copy, PartialEq, Eq, Debug)]
pub struct Refusal {
    // the cause
    pub number: u8,
    // the part that refuses: 1 system file, 2 list file, 3 folder, 4 bench
    pub part: u8,
    pub place: usize,
    // the place inside that place, 0 unless the cause is a line's
    pub inner: usize,
}

impl Refusal {
    // A refusal with no place inside its place.
    pub fn new(number: u8, part: u8, place: usize) -> Refusal
        ensures { result ≡ refused number part place }
    {
        Refusal {
            number,
            part,
            place,
            inner: 0,
        }
    }
}

impl fmt::Display for Refusal {
    ghost output = { λ r. Some (refusal_text r) };

    fn fmt<W: fmt::Write>(&self, f: &mut fmt::Formatter<W>) -> fmt::Result {
        let (number, part, place, inner) = (self.number, self.part, self.place, self.inner);
        write!(f, "refused {number} {part} {place} {inner}")
    }
}
