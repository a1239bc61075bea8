// What a move has one process do.
use files::transition::Operation;

#[derive(Clone, Copy)]
pub enum Act {
    // a transition's operation
    Operate(Operation),
    // the value of this variable in memory comes to the process
    Propagate(u8),
    // the oldest message goes
    Delete,
    // the oldest store goes to memory
    Update,
}

// An act of a process, which leaves it in a state.
#[derive(Clone, Copy)]
pub struct Deed {
    pub process: usize,
    pub act: Act,
    pub state: u8,
}
