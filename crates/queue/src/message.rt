// What a queue must know of the records that lie in it.
ghost use Rattle.std.specs.Prelude.{◌≡◌};
ghost use Rattle.queue.specs.Fifo.{Kind};

pub trait Message {
    ghost kind: { Kind Self };

    fn variable(&self) -> u8
        ensures { result ≡ (kind.means self.now).variable };

    fn value(&self) -> u8
        ensures { result ≡ (kind.means self.now).value };

    // Whether the process wrote it itself.
    fn is_own(&self) -> bool
        ensures { result ≡ (kind.means self.now).own };

    // What a place holds that no message lies in.
    fn zero() -> Self
        ensures { result ≡ kind.zero };
}
