// What a bench holds, as text.
use crate::record::Record;
use bench::Look;
use std::fmt;

// A word and the numbers behind it, on a line.
fn write_numbers<W: fmt::Write, N: fmt::Display>(
    f: &mut fmt::Formatter<W>,
    word: &str,
    numbers: &[N],
) -> fmt::Result {
    f.write_str(word)?;
    for number in numbers {
        write!(f, " {number}")?;
    }
    f.write_str("\n")
}

// States, memory and queue lengths, a line each.
#[derive(Clone, Copy)]
pub struct Held<'a>(pub Look<'a>);

impl<'a> fmt::Display for Held<'a> {
    fn fmt<W: fmt::Write>(&self, f: &mut fmt::Formatter<W>) -> fmt::Result {
        write_numbers(f, "states", self.0.states)?;
        write_numbers(f, "memory", self.0.memory)?;
        write_numbers(f, "lengths", self.0.lengths)
    }
}

// The queues, eight places a process: a line each with the bytes of the messages, oldest first; in words too, if that is
// asked.
#[derive(Clone, Copy)]
pub struct Queues<'a, M> {
    pub look: Look<'a>,
    pub records: &'a [M],
    pub in_words: bool,
}

// The bytes of a queue's messages.
fn write_queue<W: fmt::Write, M: Record>(
    f: &mut fmt::Formatter<W>,
    process: usize,
    queue: &[M],
) -> fmt::Result {
    write!(f, "queue {process}")?;
    for message in queue {
        write!(f, " {:02X}", message.byte())?;
    }
    f.write_str("\n")
}

// The messages of a queue in words, a line each.
fn write_words<W: fmt::Write, M: Record>(f: &mut fmt::Formatter<W>, queue: &[M]) -> fmt::Result {
    for message in queue {
        let (variable, value) = (message.variable(), message.value());
        let whose = if message.is_own() { "own" } else { "seen" };
        writeln!(f, "  {whose}: variable {variable}, value {value}")?;
    }
    Ok(())
}

impl<'a, M: Record> fmt::Display for Queues<'a, M> {
    fn fmt<W: fmt::Write>(&self, f: &mut fmt::Formatter<W>) -> fmt::Result {
        // Each process has its line, also where no records are lent, so this goes by process and not by chunks of the records.
        for (process, length) in self.look.lengths.iter().enumerate() {
            let at = process.saturating_mul(8).min(self.records.len());
            let end = at.saturating_add(*length).min(self.records.len());
            let queue = &self.records[at..end];
            write_queue(f, process, queue)?;
            if self.in_words {
                write_words(f, queue)?;
            }
        }
        Ok(())
    }
}
