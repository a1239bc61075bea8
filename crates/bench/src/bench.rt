// A bench: a system, the rules that it is played by, and what the machine holds besides the messages. Those lie in a slice
// of records that is lent with each call.
ghost use Rattle.std.specs.Prelude.{ℕ, ◌≤◌, slice_index};

use files::system::System;

#[derive(Drop)]
pub struct Bench<R> {
    pub(crate) rules: R,
    pub(crate) system: System,
    pub(crate) states: [u8; 4],
    pub(crate) memory: [u8; 4],
    // how many messages each process has pending
    pub(crate) lengths: [usize; 4],
    ghost short: { (p : ℕ) → slice_index lengths p ≤ 8 },
}
