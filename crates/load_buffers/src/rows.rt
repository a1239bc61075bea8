// Which bytes are rows.
ghost use Rattle.std.specs.Prelude.{◌≡◌, ◌≤◌, length, Decides};
ghost use Rattle.files.specs.Program.{program};
ghost use Rattle.load_buffers.specs.Rows.{RowFits, QueuesFit, row_length};

use super::layout::Layout;
use super::queue::queue_fits;
use files::system::System;
use fronts::{front_fits, front_length};

// the most messages of a queue in a line's row
pub(crate) const STORED: u8 = 8;

// the most messages of a queue in any row
pub(crate) const READ: u8 = 9;

// Whether each queue is one of at most so many messages. Only the two counts above are asked for, and a type of its own for them
// would say no more than their names.
fn queues_fit(layout: Layout, row: &[u8], most: u8) -> bool
    requires long { length row.now ≡ row_length layout.sizes }
    requires most { most ≤ 9 }
    ensures { Decides result (QueuesFit layout.sizes most row.now) }
{
    layout
        .queues(row)
        .iter()
        .all(|queue| queue_fits(layout.sizes, queue, most))
}

// Whether the bytes are a row with at most so many messages a queue. A comparison of rows comes here only where the first is
// below the second, so this stays out of the loops over the lines.
#[inline(never)]
pub(crate) fn row_fits(system: &System, row: &[u8], most: u8) -> bool
    requires { most ≤ 9 }
    ensures { Decides result (RowFits (program system.now) most row.now) }
{
    let layout = Layout::of(system);
    if row.len() != layout.row_length() {
        return false;
    }
    front_fits(system, &row[..front_length(system)]) && queues_fit(layout, row, most)
}
