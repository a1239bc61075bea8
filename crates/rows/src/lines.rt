// The standing rows, packed in lent memory.
ghost use Rattle.std.specs.Prelude.{◌*◌, ◌≤◌, length};

// no folder holds more lines
pub const MOST_LINES: usize = 1024;

// no machine has wider rows
pub const WIDEST: usize = 60;

// no machine has longer lines
pub const LONGEST_LINE: usize = 59;

#[derive(Clone, Copy)]
pub struct Lines<'a> {
    pub bytes: &'a [u8],
    pub width: usize,
    pub count: usize,
    ghost fits: { count * width ≤ length bytes.now },
    ghost few: { count ≤ 1024 },
}
