// Where the parts of a row lie.
ghost use Rattle.std.specs.Prelude.{◌≡◌, ◌<◌, ◌≤◌, ℕ, [], length, slice_index_or};
ghost use Rattle.files.specs.Program.{Ranges, program, sizes_of};
ghost use Rattle.load_buffers.specs.Rows.{queue_at, queue_of, row_length};

use files::sizes::Sizes;
use files::system::System;

// a queue's count and its nine places, as they lie in a row's bytes
pub(crate) const QUEUE: usize = 10;

// the row of four processes and four variables
pub(crate) const WIDEST: usize = 48;

// The sizes of a system, by which its rows are laid out.
#[derive(Clone, Copy)]
pub(crate) struct Layout {
    pub sizes: Sizes,
    ghost ranges: { Ranges sizes },
}

impl Layout {
    pub(crate) fn of(system: &System) -> Layout
        ensures { result.sizes ≡ sizes_of (program system.now) }
    {
        Layout {
            sizes: system.sizes(),
        }
    }

    // Where the queue of a process begins.
    pub(crate) fn queue_at(self, process: usize) -> usize
        requires { process ≤ 4 }
        ensures value { result ≡ queue_at self.sizes process }
        ensures small { result ≤ 48 }
    {
        usize::from(self.sizes.processes) + usize::from(self.sizes.variables) + QUEUE * process
    }

    // How long a row is.
    pub(crate) fn row_length(self) -> usize
        ensures value { result ≡ row_length self.sizes }
        ensures small { result ≤ 48 }
    {
        self.queue_at(usize::from(self.sizes.processes))
    }

    // The queues of a row, one for each process.
    pub(crate) fn queues(self, row: &[u8]) -> &[[u8; QUEUE]]
        requires { length row.now ≡ row_length self.sizes }
        ensures many { length result.now ≡ self.sizes.processes }
        ensures each { (p : ℕ) → p < self.sizes.processes → slice_index_or result.now p [] ≡ queue_of self.sizes p row.now }
    {
        let (queues, _) = row[self.queue_at(0)..].as_chunks();
        queues
    }

    // The queue of a process.
    pub(crate) fn queue_of(self, row: &[u8], process: usize) -> &[u8; QUEUE]
        requires long { length row.now ≡ row_length self.sizes }
        requires process { process < self.sizes.processes }
        ensures { result.now ≡ queue_of self.sizes process row.now }
    {
        let (queues, _) = row[self.queue_at(process)..].as_chunks();
        &queues[0]
    }
}
