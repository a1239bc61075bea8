// One folder and the bytes that are lent to its calls.
ghost use Rattle.std.specs.Prelude.{◌<◌};

use crate::reply::Reply;
use crate::request::Request;
use anyhow::anyhow;
use console::{Hex, decode};
use folder::Folder;
use ledger::{Answer, Call, Deed, play};
use machines::{Machine, OrderedRow};
use rows::WIDEST;
use std::alloc::{AllocError, Global};

// Memory has so many bytes, and no strip, witness, row or list file needs more.
const BYTES: usize = 65_536;

#[derive(Drop)]
pub struct Session<M> {
    folder: Folder<M>,
    memory: Vec<u8>,
    strip: Vec<u8>,
    witness: Vec<u8>,
}

// The first bytes, as many as asked for and there are.
fn part(bytes: &[u8], len: usize) -> &[u8] {
    &bytes[..len.min(bytes.len())]
}

// The bytes from a place on.
fn behind(bytes: &[u8], at: usize) -> &[u8] {
    &bytes[at.min(bytes.len())..]
}

// Writes bytes from a place on, as many as fit.
fn poke(memory: &mut [u8], at: usize, bytes: &[u8]) {
    let at = at.min(memory.len());
    for (place, byte) in memory[at..].iter_mut().zip(bytes) {
        *place = *byte;
    }
}

impl<M: Machine + Drop> Session<M> {
    pub fn open(heap: Global, machine: M) -> Result<Session<M>, AllocError> {
        Ok(Session {
            folder: Folder::open(machine),
            memory: vec![in heap; 0; BYTES]?,
            strip: vec![in heap; 0; BYTES]?,
            witness: vec![in heap; 0; BYTES]?,
        })
    }
}

impl<M: Machine> Session<M> {
    // How many lines stand.
    pub fn count(&self) -> usize {
        self.folder.count()
    }

    fn width(&self) -> usize
        ensures { 0 < result }
    {
        self.folder.machine().row_len()
    }

    // The last line that stands.
    fn last_line(&self, heap: Global) -> anyhow::Result<Vec<u8>> {
        let mut row = [0; WIDEST];
        let mut line = [0; WIDEST];
        let last = self.count().saturating_sub(1);
        if self.folder.show(&self.memory, last, &mut row).is_err() {
            return Err(anyhow!("no last row"));
        }
        let machine = self.folder.machine();
        let Some(len) = machine.write_line(part(&row, self.width()), &mut line) else {
            return Err(anyhow!("no last line"));
        };
        Ok(part(&line, len).to_vec(heap)?)
    }

    fn reply(&self, heap: Global, answer: Answer) -> anyhow::Result<Reply> {
        match answer {
            Answer::Changed(Ok(())) => Ok(Reply::Done),
            Answer::Grew(Ok(true)) => Ok(Reply::Added(self.last_line(heap)?)),
            Answer::Grew(Ok(false)) => Ok(Reply::Nothing),
            Answer::Ruled(Ok(verdict)) => Ok(Reply::Ruled(verdict)),
            Answer::Changed(Err(fault)) | Answer::Grew(Err(fault)) | Answer::Ruled(Err(fault)) => {
                Ok(Reply::Refused(fault.into()))
            }
        }
    }

    // Plays a deed that is lent so many bytes of memory, strip and witness.
    fn play(
        &mut self,
        heap: Global,
        deed: Deed,
        memory: usize,
        strip: usize,
        witness: usize,
    ) -> anyhow::Result<Reply> {
        let call = Call {
            deed,
            memory,
            strip,
            witness,
        };
        let answer = play(
            &mut self.folder,
            &call,
            &mut self.memory,
            &mut self.strip,
            &mut self.witness,
        );
        self.reply(heap, answer)
    }

    // Plays a deed with all bytes.
    pub fn play_amply(&mut self, heap: Global, deed: Deed) -> anyhow::Result<Reply> {
        self.play(heap, deed, BYTES, BYTES, BYTES)
    }

    // Shows the row of a line.
    fn show(
        &self,
        heap: Global,
        number: usize,
        memory: usize,
        place: usize,
    ) -> anyhow::Result<Reply> {
        let mut place = vec![in heap; 0; place.min(BYTES)]?;
        match self
            .folder
            .show(part(&self.memory, memory), number, &mut place)
        {
            Ok(()) => Ok(Reply::Row(part(&place, self.width()).to_vec(heap)?)),
            Err(fault) => Ok(Reply::Refused(fault.into())),
        }
    }

    // Writes all lines out.
    fn write_out(&self, heap: Global, memory: usize, place: usize) -> anyhow::Result<Reply> {
        let mut place = vec![in heap; 0; place.min(BYTES)]?;
        match self
            .folder
            .write_out(part(&self.memory, memory), &mut place)
        {
            Ok(len) => Ok(Reply::File(part(&place, len).to_vec(heap)?)),
            Err(fault) => Ok(Reply::Refused(fault.into())),
        }
    }

    // The answer to a request. A deed that needs no strip or witness is lent none.
    pub fn answer(&mut self, heap: Global, request: &Request) -> anyhow::Result<Reply> {
        match request {
            Request::Enter { line, memory } => {
                self.play(heap, Deed::Enter(line.as_slice()), *memory, 0, 0)
            }
            Request::TakeIn { file, memory } => {
                self.play(heap, Deed::TakeIn(file.as_slice()), *memory, 0, 0)
            }
            Request::Strike { number, memory } => {
                self.play(heap, Deed::Strike(*number), *memory, 0, 0)
            }
            Request::Grow { memory, strip } => self.play(heap, Deed::Grow, *memory, *strip, 0),
            Request::Judge {
                memory,
                strip,
                witness,
            } => self.play(heap, Deed::Judge, *memory, *strip, *witness),
            Request::Show {
                number,
                memory,
                place,
            } => self.show(heap, *number, *memory, *place),
            Request::WriteOut { memory, place } => self.write_out(heap, *memory, *place),
            Request::Poke { at, bytes } => {
                poke(&mut self.memory, *at, bytes.as_slice());
                Ok(Reply::Done)
            }
            Request::Dump { at, len } => {
                let bytes = part(behind(&self.memory, *at), *len);
                Ok(Reply::Bytes(bytes.to_vec(heap)?))
            }
        }
    }

    // Where one line was grown and another is expected, both of which are right, makes the expected choice: strikes the
    // one and enters the other, so that what follows can be compared.
    pub fn choose(&mut self, heap: Global, grown: Reply, expected: &str) -> anyhow::Result<Reply> {
        let Ok(expected) = decode(heap, expected) else {
            return Ok(grown);
        };
        if !grown.adds_other_than(expected.as_slice()) {
            return Ok(grown);
        }
        let last = self.count().saturating_sub(1);
        let _struck = self.play_amply(heap, Deed::Strike(last))?;
        let entered = self.play_amply(heap, Deed::Enter(expected.as_slice()))?;
        if entered.is_refusal() {
            return Ok(entered);
        }
        Ok(Reply::Added(self.last_line(heap)?))
    }

    // The line of the witness that the last verdict left.
    pub fn witness_line(&self, heap: Global) -> anyhow::Result<String> {
        Ok(format!(in heap; "witness {}", Hex(part(&self.witness, self.width())))?)
    }

    // The line of the rows that stand.
    pub fn rows_line(&self, heap: Global) -> anyhow::Result<String> {
        let count = self.count();
        let mut text = format!(in heap; "rows {count}")?;
        for row in self.memory.chunks_exact(self.width()).take(count) {
            write!(text, " {}", Hex(row))?;
        }
        Ok(text)
    }
}
