// The answer to a request, and how it is told.
use console::Hex;
use files::refusal::Refusal;
use judge::Verdict;
use std::fmt;

#[derive(Drop)]
pub enum Reply {
    Done,
    // the line that was grown
    Added(Vec<u8>),
    // nothing is missing
    Nothing,
    Ruled(Verdict),
    Row(Vec<u8>),
    File(Vec<u8>),
    Bytes(Vec<u8>),
    Refused(Refusal),
}

impl Reply {
    // Whether a line was grown, and not this one.
    pub fn adds_other_than(&self, line: &[u8]) -> bool {
        match self {
            Reply::Added(grown) => grown.as_slice() != line,
            _ => false,
        }
    }

    pub fn is_refusal(&self) -> bool {
        matches!(self, Reply::Refused(_))
    }

    // Whether a line was grown.
    pub fn is_added(&self) -> bool {
        matches!(self, Reply::Added(_))
    }

    // Whether the witness holds a row.
    pub fn has_witness(&self) -> bool {
        matches!(self, Reply::Ruled(Verdict::Bad | Verdict::Leak(_, _)))
    }
}

fn write_bytes<W: fmt::Write>(f: &mut fmt::Formatter<W>, word: &str, bytes: &[u8]) -> fmt::Result {
    write!(f, "{word} {}", Hex(bytes))
}

impl fmt::Display for Reply {
    fn fmt<W: fmt::Write>(&self, f: &mut fmt::Formatter<W>) -> fmt::Result {
        match self {
            Reply::Done => write!(f, "ok"),
            Reply::Added(line) => write_bytes(f, "added", line.as_slice()),
            Reply::Nothing => write!(f, "none"),
            Reply::Ruled(verdict) => write!(f, "{verdict}"),
            Reply::Row(row) => write_bytes(f, "row", row.as_slice()),
            Reply::File(file) => write!(f, "file {} {}", file.len(), Hex(file.as_slice())),
            Reply::Bytes(bytes) => write_bytes(f, "bytes", bytes.as_slice()),
            Reply::Refused(refusal) => write!(f, "{refusal}"),
        }
    }
}
