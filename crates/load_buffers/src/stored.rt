// Storable rows and the queues in them.
ghost use Rattle.std.specs.Prelude.{◌≡◌, ◌+◌, ◌<◌, ◌≤◌, ◌==◌, suc, cond, length, take, None, Some, IfSome, MatchOption, slice_index};
ghost use Rattle.files.specs.Program.{program, sizes_of};
ghost use Rattle.load_buffers.specs.Backs.{newest_at};
ghost use Rattle.load_buffers.specs.Rows.{Storable, queue_of};

use super::layout::{Layout, QUEUE};
use super::queue::newest_own;
use super::rows::{STORED, row_fits};
use files::system::System;

// The queue of a process in a storable row.
#[derive(Clone, Copy)]
pub(crate) struct StoredQueue<'a> {
    pub bytes: &'a [u8; QUEUE],
    ghost few: { slice_index bytes.now 0 ≤ 8 },
}

impl<'a> StoredQueue<'a> {
    // How many messages it has.
    pub(crate) fn count(self) -> usize
        ensures value { result ≡ slice_index self.entry.bytes.now 0 }
        ensures few { result ≤ 8 }
    {
        usize::from(self.bytes[0])
    }

    // The newest message.
    pub(crate) fn newest(self) -> Option<u8>
        ensures { let q = self.entry.bytes.now in result ≡ cond (slice_index q 0 == 0) None (Some (slice_index q (slice_index q 0))) }
    {
        let count = self.count();
        if count == 0 {
            return None;
        }
        Some(self.bytes[count])
    }

    // The place of its newest own message of a variable, if there is one.
    pub(crate) fn newest_own(self, variable: u8) -> Option<usize>
        ensures value { let q = self.entry.bytes.now in result ≡ newest_at variable q (slice_index q 0) }
        ensures below { IfSome result (λ i. i < 8) }
    {
        newest_own(self.bytes, self.count(), variable)
    }

    // The bytes in use: the count and the messages.
    pub(crate) fn in_use(self) -> &'a [u8]
        ensures value { result.now ≡ take (suc (slice_index self.entry.bytes.now 0)) self.entry.bytes.now }
        ensures long { length result.now ≡ suc (slice_index self.entry.bytes.now 0) }
    {
        let bytes = self.bytes;
        &bytes[..1 + self.count()]
    }
}

// The row of a line, beside its system.
#[derive(Clone, Copy)]
pub(crate) struct StoredRow<'a> {
    pub system: &'a System,
    pub bytes: &'a [u8],
    ghost storable: { Storable (program system.now) bytes.now },
}

impl<'a> StoredRow<'a> {
    // None where the bytes are no storable row.
    pub(crate) fn of(system: &'a System, bytes: &'a [u8]) -> Option<StoredRow<'a>>
        ensures { MatchOption result (Storable (program system.now) bytes.now → ⊥) (λ row. (row.system.now ≡ system.now) × (row.bytes.now ≡ bytes.now)) }
    {
        if !row_fits(system, bytes, STORED) {
            return None;
        }
        Some(StoredRow { system, bytes })
    }

    // The state of a process. Numbers of processes and variables come from transitions and slots, where it is known that the
    // system has them; a type for them would have to carry the system about.
    pub(crate) fn state(self, process: u8) -> u8
        requires { process < length (program self.system.now).states }
        ensures { result ≡ slice_index self.entry.bytes.now process }
    {
        self.bytes[usize::from(process)]
    }

    // The value of a variable in memory.
    pub(crate) fn value(self, variable: u8) -> u8
        requires { variable < (program self.system.now).variables }
        ensures value { result ≡ slice_index self.entry.bytes.now (length (program self.entry.system.now).states + variable) }
        ensures small { result < 4 }
    {
        self.bytes[usize::from(self.system.sizes().processes) + usize::from(variable)]
    }

    // The queue of a process.
    pub(crate) fn queue(self, process: u8) -> StoredQueue<'a>
        requires { process < length (program self.system.now).states }
        ensures { result.bytes.now ≡ queue_of (sizes_of (program self.entry.system.now)) process self.entry.bytes.now }
    {
        StoredQueue {
            bytes: Layout::of(self.system).queue_of(self.bytes, usize::from(process)),
        }
    }
}
