// Calls on a folder, and their answers, as values.
use judge::Verdict;
use rows::FolderFault;

#[derive(Clone, Copy)]
pub enum Deed<'a> {
    // the line
    Enter(&'a [u8]),
    // the list file
    TakeIn(&'a [u8]),
    // the number of the line
    Strike(usize),
    Grow,
    Judge,
}

// A call, with the counts of bytes of memory, strip and witness that are lent to it.
#[derive(Clone, Copy)]
pub struct Call<'a> {
    pub deed: Deed<'a>,
    pub memory: usize,
    pub strip: usize,
    pub witness: usize,
}

#[derive(Clone, Copy)]
pub enum Answer {
    // to enter, take in and strike
    Changed(Result<(), FolderFault>),
    // to grow
    Grew(Result<bool, FolderFault>),
    // to judge
    Ruled(Result<Verdict, FolderFault>),
}
