// Whether the records that are lent can be played on.
ghost use Rattle.std.specs.Prelude.{◌≡◌, ℕ, ◌+◌, ◌*◌, ◌/◌, ◌<◌, ◌≤◌, not, length, slice_index, IfSome};
ghost use Rattle.std.specs.List.{position_from};
ghost use Rattle.std.specs.Result.{result_err};
ghost use Rattle.files.specs.Program.{program, sizes_of, Program};
ghost use Rattle.bench.specs.Play.{unready, wrong_at, fits, lowest};
ghost use Rattle.bench.specs.Table.{needed, table_of, Sized};

use crate::bench::Bench;
use crate::fault::BenchFault;
use crate::play::places_at;
use files::sizes::Sizes;
use queue::Message;
use rules::{MOST, Rules};

// Whether variable and value of a message are the system's.
fn message_fits<M: Message + Copy>(sizes: Sizes, message: M) -> bool
    ensures { (s : Program) → sizes ≡ sizes_of s → result ≡ fits s (M.Message.kind.means message) }
{
    message.variable() < sizes.variables && message.value() < sizes.values
}

// Which of these messages is the first that is not the system's.
fn wrong_among<M: Message + Copy>(sizes: Sizes, queued: &[M]) -> Option<usize>
    ensures within { IfSome result (λ i. i < length queued.now) }
    ensures value { (s : Program) → sizes ≡ sizes_of s → result ≡ position_from (λ m. not (fits s (M.Message.kind.means m))) 0 queued.now }
{
    queued
        .iter()
        .position(|message| !message_fits(sizes, *message))
}

// The place of the first such message in the queue of a process. Only its messages are looked at, and not the places behind
// them: this is asked at each move.
fn wrong_in_queue<M: Message + Copy>(
    sizes: Sizes,
    lengths: &[usize],
    messages: &[M],
    process: usize,
) -> Option<usize>
    requires places { 8 * process + 8 ≤ length messages.now }
    requires process { process < length lengths.now }
    requires short { slice_index lengths.now process ≤ 8 }
    ensures { (s : Program) → sizes ≡ sizes_of s → result ≡ lowest (wrong_at M.Message.kind s lengths.now messages.now) 8 (8 * process) }
{
    let start = MOST * process;
    let place = wrong_among(sizes, &messages[start..start + lengths[process]])?;
    Some(start + place)
}

// The lowest place where a message is queued that is not the system's. Only this search takes the three together, so they
// are no struct.
fn first_wrong<M: Message + Copy>(sizes: Sizes, lengths: &[usize], messages: &[M]) -> Option<usize>
    requires places { length messages.now ≤ 8 * length lengths.now }
    requires short { (p : ℕ) → slice_index lengths.now p ≤ 8 }
    ensures { (s : Program) → sizes ≡ sizes_of s → result ≡ lowest (wrong_at M.Message.kind s lengths.now messages.now) (8 * (length messages.now / 8)) 0 }
{
    (0..messages.len() / MOST).find_map(|process| wrong_in_queue(sizes, lengths, messages, process))
}

impl<R: Rules> Bench<R> {
    // How many records the bench needs.
    pub(crate) fn needed(&self) -> usize
        ensures value { result ≡ needed R.Rules.book (program self.now.system) }
        ensures small { result ≤ 8 * length (program self.now.system).states }
    {
        places_at::<R>(usize::from(self.system.sizes().processes))
    }

    // Whether these records can be played on, or why not.
    pub fn ready(&self, messages: &[R::Record]) -> Result<(), BenchFault>
        ensures sized { Sized self.now }
        ensures value { result_err result ≡ unready R.Record.Message.kind R.Rules.book (program self.now.system) (table_of self.now messages.now) }
    {
        let look = self.look();
        let needed = self.needed();
        if messages.len() < needed {
            return Err(BenchFault::Short(needed));
        }
        match first_wrong(self.system.sizes(), look.lengths, &messages[0..needed]) {
            Some(place) => Err(BenchFault::Wrong(place)),
            None => Ok(()),
        }
    }
}
