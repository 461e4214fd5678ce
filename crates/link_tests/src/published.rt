// The published telegram.
pub(crate) const KEY: &[u8; 16] = b"128-Bit Test Key";

pub(crate) const NONCE: &[u8; 8] = b"Nonce 64";

pub(crate) const AAD: &[u8; 3] = b"AAD";

pub(crate) const MESSAGE: &[u8; 18] = b"cbeam128r1 payload";

pub(crate) const SEALED: &[u8; 26] =
    b"\x1B\xB9\xA3\xD0\xFC\x34\x07\x8E\x70\x78\x30\x1E\xE9\x8D\x25\xE6\
                                       \x61\x29\x07\x8D\xBB\x1E\x48\x0A\x20\x0E";
// The same, with another last byte.
pub(crate) const FORGED: &[u8; 26] =
    b"\x1B\xB9\xA3\xD0\xFC\x34\x07\x8E\x70\x78\x30\x1E\xE9\x8D\x25\xE6\
                                       \x61\x29\x07\x8D\xBB\x1E\x48\x0A\x20\x0F";
