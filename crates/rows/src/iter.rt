// The standing rows, one by one and in turn.
ghost use Rattle.std.specs.Prelude.{◌≡◌, ◌<◌, ◌≤◌, [], length, MatchOption, slice_index_or};
ghost use Rattle.std.specs.Iterator.{YieldsFirstRef, item_count};
ghost use Rattle.rows.specs.Standing.{rows_left, rows_of};

use super::lines::Lines;

// The rows that are still to come.
#[derive(Drop)]
pub struct Rows<'a> {
    left: Lines<'a>,
}

impl<'a> Iterator for Rows<'a> {
    type Item = &'a [u8];

    ghost next_gives = { YieldsFirstRef rows_left };

    ghost remaining = { item_count rows_left };

    fn next(&mut self) -> Option<&'a [u8]> {
        let Lines {
            bytes,
            width,
            count,
        } = self.left;
        let count = count.checked_sub(1)?;
        let (row, bytes) = bytes.split_at(width);
        self.left = Lines {
            bytes,
            width,
            count,
        };
        Some(row)
    }
}

impl<'a> Lines<'a> {
    // The rows in turn.
    pub fn rows(&self) -> Rows<'a>
        ensures rows { rows_left result ≡ rows_of self.now }
        ensures few { length (rows_of self.now) ≤ 1024 }
    {
        Rows { left: *self }
    }

    // The row of a number; none past the last one.
    pub fn row(&self, number: usize) -> Option<&'a [u8]>
        ensures { let ls = rows_of self.now in MatchOption result (length ls ≤ number) (λ a. (number < length ls) × (a.now ≡ slice_index_or ls number [])) }
    {
        if number >= self.count {
            return None;
        }
        let from = number * self.width;
        Some(&self.bytes[from..from + self.width])
    }
}
