// What an act does to memory and to the queue of its process.

#[derive(Clone, Copy)]
pub enum Change<M> {
    Keep,
    // a newest message joins
    Join(M),
    // the oldest message goes
    Leave,
}

// A value that goes into memory.
#[derive(Clone, Copy, PartialEq, Eq, Debug)]
pub struct Write {
    pub variable: u8,
    pub value: u8,
}

#[derive(Clone, Copy)]
pub struct Effect<M> {
    pub write: Option<Write>,
    pub change: Change<M>,
}
