// Lines: the states, the memory values, then for each queue a count and so many messages.
ghost use Rattle.std.specs.Prelude.{◌≡◌, ◌≤◌, [], ◌∷◌, map, length, take, Some, MatchResult};
ghost use Rattle.files.specs.Program.{program, sizes_of};
ghost use Rattle.fronts.specs.Fronts.{front_len};
ghost use Rattle.load_buffers.specs.Lines.{line_of};
ghost use Rattle.load_buffers.specs.Reading.{Faulty, FrontRead, QueueRead, RowRead, is_message, line_fault, one, queue as counted, taken, tests};
ghost use Rattle.load_buffers.specs.Rows.{row_length};

use super::layout::{Layout, QUEUE, WIDEST};
use super::message::message_fits;
use super::rows::STORED;
use super::stored::StoredRow;
use files::list_fault::LineFault;
use files::sizes::Sizes;
use files::system::System;
use fronts::{byte_below, front_length, limit};

// the line of four processes and four variables with all queues full
pub(crate) const LONGEST: usize = 44;

// The message at a place.
fn message_at(sizes: Sizes, line: &[u8], at: usize) -> Result<u8, LineFault>
    ensures { result ≡ taken (is_message sizes) line.now at }
{
    let message = byte_below(line, at, 32)?;
    if !message_fits(sizes, message) {
        return Err(LineFault::Byte(at));
    }
    Ok(message)
}

// Fills in the states and the memory values.
fn fill_front(system: &System, line: &[u8], row: &mut [u8]) -> Result<(), LineFault>
    requires { front_len (program system.now) ≤ length row.old }
    ensures { MatchResult result (λ _. FrontRead (program system.now) line.now row.new) (Faulty 0 (map one (tests (program system.now))) line.now) }
{
    // A fault is told by its place in the line, so the loop counts the places.
    for i in 0..front_length(system) {
        row[i] = byte_below(line, i, limit(system, i))?;
    }
    Ok(())
}

// Fills in a queue, whose count stands at a place of the line, and gives the place behind it.
fn fill_queue(
    sizes: Sizes,
    line: &[u8],
    at: usize,
    queue: &mut [u8; QUEUE],
) -> Result<usize, LineFault>
    requires { at ≤ length line.now }
    ensures { MatchResult result (λ end. QueueRead sizes line.now at end queue.new) (Faulty at (counted sizes ∷ []) line.now) }
{
    *queue = [0; QUEUE];
    let count = byte_below(line, at, STORED + 1)?;
    queue[0] = count;
    let count = usize::from(count);
    // By index, since a proof does not know what `iter_mut` leaves behind.
    for i in 0..count {
        queue[1 + i] = message_at(sizes, line, at + 1 + i)?;
    }
    Ok(at + 1 + count)
}

// The same for a part of a row. Of an array that is made from a row's part, a proof knows what the row ends as only where the
// part is an argument.
fn fill_part(sizes: Sizes, line: &[u8], at: usize, part: &mut [u8]) -> Result<usize, LineFault>
    requires ten { length part.old ≡ 10 }
    requires within { at ≤ length line.now }
    ensures { MatchResult result (λ end. QueueRead sizes line.now at end part.new) (Faulty at (counted sizes ∷ []) line.now) }
{
    let Some(queue) = part.as_mut_array() else {
        unreachable!()
    };
    fill_queue(sizes, line, at, queue)
}

// Fills in a line's row; where the bytes are no line, the row may hold anything.
fn fill_row(system: &System, line: &[u8], row: &mut [u8]) -> Result<(), LineFault>
    requires { length row.old ≡ row_length (sizes_of (program system.now)) }
    ensures { MatchResult result (λ _. RowRead (program system.now) line.now row.new) (λ f. line_fault (program system.now) line.now ≡ Some f) }
{
    let layout = Layout::of(system);
    fill_front(system, line, row)?;
    let mut end = front_length(system);
    // By index, since a proof does not know what `as_chunks_mut` leaves behind.
    for p in 0..usize::from(layout.sizes.processes) {
        let at = layout.queue_at(p);
        end = fill_part(layout.sizes, line, end, &mut row[at..at + QUEUE])?;
    }
    if end < line.len() {
        return Err(LineFault::Byte(end));
    }
    Ok(())
}

// A line's row, in the first bytes of a widest row.
pub(crate) fn row_of_line(system: &System, line: &[u8]) -> Result<[u8; WIDEST], LineFault>
    ensures { MatchResult result (λ row. RowRead (program system.now) line.now (take (row_length (sizes_of (program system.now))) row)) (λ f. line_fault (program system.now) line.now ≡ Some f) }
{
    let mut row = [0; WIDEST];
    fill_row(system, line, &mut row[..Layout::of(system).row_length()])?;
    Ok(row)
}

impl StoredRow<'_> {
    // Writes the row's line into the first bytes of a longest line, and gives its length.
    pub(crate) fn put_line(self, line: &mut [u8; LONGEST]) -> usize
        ensures length { result ≡ length (line_of (program self.entry.system.now) self.entry.bytes.now) }
        ensures small { result ≤ 44 }
        ensures line { take result line.new ≡ line_of (program self.entry.system.now) self.entry.bytes.now }
    {
        let mut end = front_length(self.system);
        line[..end].copy_from_slice(&self.bytes[..end]);
        // Each queue ends where the next begins, so the loop goes by the process.
        for p in 0..self.system.sizes().processes {
            let used = self.queue(p).in_use();
            line[end..end + used.len()].copy_from_slice(used);
            end += used.len();
        }
        end
    }
}
