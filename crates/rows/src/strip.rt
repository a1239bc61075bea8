// The work strip, which is all zero again once its guard is dropped.
ghost use Rattle.std.specs.Prelude.{◌≡◌, length};
ghost use Rattle.rows.specs.Standing.{zeros};

pub struct Strip<'a> {
    pub bytes: &'a mut [u8],
}

impl Drop for Strip<'_> {
    fn drop(self)
        ensures { self.exit.0.now ≡ zeros (length self.entry.bytes.now) }
    {
        self.bytes.fill(0);
        let Strip { bytes: _ } = self;
    }
}
