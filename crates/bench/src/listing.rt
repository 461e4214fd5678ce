// A listing in the making, over a lent slice.
mod lines;
mod text;

ghost use Rattle.std.specs.Prelude.{◌≤◌, length};

// The first `used` bytes are written; nothing allocates, so it is no `Vec`. `io::Cursor` is no plainer: its place has no bound, and its `write` tells how much
// fitted, where here the invariant says that all does.
#[derive(Drop)]
pub(crate) struct Listing<'a> {
    pub(crate) bytes: &'a mut [u8],
    pub(crate) used: usize,
    ghost within: { used ≤ length bytes.now },
}
