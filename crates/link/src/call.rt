// A call at an endpoint as a value, and what it is answered with where it is not refused.
ghost use Rattle.std.specs.Prelude.{◌≡◌};
ghost use Rattle.link.specs.Calls.{accepted, bytes_told};

// What is handed over to be read is lent.
#[derive(Clone, Copy)]
pub enum Call<'a> {
    Start { key: &'a [u8], nonce: &'a [u8] },
    Seal { aad: &'a [u8], message: &'a [u8] },
    Open { aad: &'a [u8], sealed: &'a [u8] },
    Left,
    Close,
}

// The bytes that it tells stand in the output, which is the caller's; so it has their number alone.
#[derive(Clone, Copy, PartialEq, Eq, Debug)]
pub enum Answer {
    Started,
    Sealed(usize),
    Opened(usize),
    Left(u32),
    Closed,
}

impl Answer {
    // How many bytes it tells, which stand at the head of the output.
    pub fn length(self) -> usize
        ensures { result ≡ bytes_told (accepted self) }
    {
        match self {
            Answer::Sealed(n) | Answer::Opened(n) => n,
            Answer::Started | Answer::Left(_) | Answer::Closed => 0,
        }
    }
}
