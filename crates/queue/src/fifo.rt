// A queue over lent places: the first `count` of them hold its messages, oldest first.
ghost use Rattle.std.specs.Prelude.{◌≡◌, ◌+◌, ◌-◌, ◌≤◌, Ok, Err, is_ok, [], ◌∷◌, ◌++◌, map, length, take, drop, if◌then◌else◌, nat_lt, slice_set};
ghost use Rattle.machines.specs.Message.{newest};
ghost use Rattle.queue.specs.Fifo.{front, advanced, popped};
ghost use Rattle.queue.specs.Waiting.{waiting};

use crate::message::Message;

#[derive(Drop)]
pub struct Queue<'a, M> {
    pub places: &'a mut [M],
    pub count: usize,
}

// Moves each element one place forward, and puts z into the last place.
fn advance<M: Copy>(xs: &mut [M], z: M)
    ensures { xs.new ≡ advanced z xs.old }
{
    if !xs.is_empty() {
        xs.rotate_left(1);
        let last = xs.len() - 1;
        xs[last] = z;
    }
}

// The value of the newest own message of a variable, oldest first.
fn newest_in<M: Message + Copy>(queued: &[M], variable: u8) -> Option<u8>
    ensures { result ≡ newest variable (map M.Message.kind.means queued.now) }
{
    queued
        .iter()
        .rev()
        .find(|m| m.is_own() && m.variable() == variable)
        .map(|m| m.value())
}

impl<'a, M: Message + Copy> Queue<'a, M> {
    // How many messages there are; a count past the places is no more than the places.
    pub fn len(&self) -> usize
        ensures value { result ≡ length (take self.now.count self.now.places.now) }
        ensures within { result ≤ length self.now.places.now }
    {
        self.count.min(self.places.len())
    }

    // The messages, oldest first.
    fn messages(&self) -> &[M]
        ensures { result.now ≡ take self.now.count self.now.places.now }
    {
        &self.places[..self.len()]
    }

    // Adds a message as newest; where no place is free, hands it back with nothing done.
    pub fn push(&mut self, m: M) -> Result<(), M>
        ensures answer { result ≡ (if nat_lt self.old.count (length self.old.places.now) then Ok tt else Err m) }
        ensures count { self.new.count ≡ (if is_ok result then self.old.count + 1 else self.old.count) }
        ensures places { self.new.places.now ≡ (if is_ok result then slice_set self.old.places.now self.old.count m else self.old.places.now) }
        ensures queued { take self.new.count self.new.places.now ≡ take self.old.count self.old.places.now ++ (if is_ok result then m ∷ [] else []) }
        ensures lender { self.new.places.ghost_name ≡ self.old.places.ghost_name }
    {
        let at = self.count;
        if at >= self.places.len() {
            return Err(m);
        }
        self.places[at] = m;
        self.count = at + 1;
        Ok(())
    }

    // Drops the oldest message; the others move up, and the freed place becomes zero.
    pub fn pop(&mut self) -> Option<M>
        ensures answer { result ≡ front (take self.old.count self.old.places.now) }
        ensures count { self.new.count ≡ length (take self.old.count self.old.places.now) - 1 }
        ensures places { self.new.places.now ≡ popped M.Message.kind.zero self.old.count self.old.places.now }
        ensures queued { take self.new.count self.new.places.now ≡ drop 1 (take self.old.count self.old.places.now) }
        ensures lender { self.new.places.ghost_name ≡ self.old.places.ghost_name }
    {
        let oldest = self.oldest();
        let n = self.len();
        advance(&mut self.places[0..n], M::zero());
        self.count = n.saturating_sub(1);
        oldest
    }

    // The oldest message.
    pub fn oldest(&self) -> Option<M>
        ensures { result ≡ front (take self.now.count self.now.places.now) }
    {
        self.messages().first().copied()
    }

    // The value of the newest own message of a variable.
    pub fn newest_own(&self, variable: u8) -> Option<u8>
        ensures { result ≡ newest variable (waiting M.Message.kind self.now) }
    {
        newest_in(self.messages(), variable)
    }
}
