// The guard over a lent output.
ghost use Rattle.std.specs.Prelude.{◌≡◌, length};
ghost use Rattle.link.specs.Blocks.{zeros};

// The bytes are zeroed when this ends, unless it is released.
pub(crate) struct Wipe<'a>(pub(crate) &'a mut [u8]);

impl Drop for Wipe<'_> {
    fn drop(self)
        ensures { self.exit.0.now ≡ zeros (length self.entry.0.now) }
    {
        let Wipe(bytes) = self;
        bytes.fill(0);
    }
}

impl Wipe<'_> {
    // Ends it, and leaves the bytes.
    pub(crate) fn release(self)
        ensures { self.exit.0.now ≡ self.entry.0.now }
    {
        let Wipe(_) = self;
    }
}
