// A list file, as its reader has it.
ghost use Rattle.std.specs.Prelude.{◌≡◌, None};
ghost use Rattle.files.specs.Bytes.{two};
ghost use Rattle.files.specs.Directory.{dir_fault};

// A reader over the bytes of a list file whose directory is right.
#[derive(Clone, Copy)]
pub struct ListReader<'a> {
    pub(crate) bytes: &'a [u8],
    pub(crate) count: usize,
    ghost right: { dir_fault bytes.now ≡ None },
    ghost counted: { count ≡ two bytes.now 0 },
}

// A line, as a part of its file, with its number from 0 and its place in the file.
#[derive(Clone, Copy)]
pub struct Line<'a> {
    pub bytes: &'a [u8],
    pub number: usize,
    pub place: usize,
}
