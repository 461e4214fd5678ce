// The commands of a script.
ghost use Rattle.std.specs.Prelude.{◌≡◌};
ghost use Rattle.bench.specs.Commands.{opcode, part_at};

// A part of the pool. It is no slice: operands name it before the pool is asked whether it has it.
#[derive(Clone, Copy)]
pub struct Part {
    pub place: u16,
    pub len: u16,
}

impl Part {
    // From the operands that name it. Not `From`: the name says in which order their bytes stand.
    pub(crate) fn from_le_bytes(bytes: [u8; 4]) -> Part
        ensures { result ≡ part_at bytes 0 }
    {
        let [a, b, c, d] = bytes;
        Part {
            place: u16::from_le_bytes([a, b]),
            len: u16::from_le_bytes([c, d]),
        }
    }
}

// It is no `Call`: it names places of a pool that may not have them, and key and nonce by their places alone, since their
// lengths are fixed.
#[derive(Clone, Copy)]
pub enum Command {
    Start { key: u16, nonce: u16 },
    Seal { aad: Part, message: Part },
    Open { aad: Part, sealed: Part },
    Left,
    Close,
}

impl Command {
    // The byte that names it; `as` gives no number where variants hold values.
    pub(crate) fn opcode(self) -> u8
        ensures { result ≡ opcode self }
    {
        match self {
            Command::Start { .. } => 1,
            Command::Seal { .. } => 2,
            Command::Open { .. } => 3,
            Command::Left => 4,
            Command::Close => 5,
        }
    }
}
