// The parts of the pool that a command names.
ghost use Rattle.std.specs.Prelude.{◌≡◌, true, false, length, MatchOption};
ghost use Rattle.bench.specs.Pools.{part_of, part_inside, lies, IsCall, room};

use crate::command::{Command, Part};
use link::call::Call;

impl Part {
    // Its bytes, where it lies in the pool.
    fn of(self, pool: &[u8]) -> Option<&[u8]>
        ensures { MatchOption result (part_inside (length pool.now) self ≡ false)
            (λ bytes. (part_inside (length pool.now) self ≡ true) × (bytes.now ≡ part_of pool.now self)) }
    {
        pool.get(usize::from(self.place)..)?
            .get(..usize::from(self.len))
    }
}

impl Command {
    // The call that it is, with its parts of the pool lent, where they all lie in it.
    pub(crate) fn call(self, pool: &[u8]) -> Option<Call<'_>>
        ensures { MatchOption result (lies (length pool.now) self ≡ false)
            (λ made. (lies (length pool.now) self ≡ true) × IsCall pool.now self made) }
    {
        let call = match self {
            Command::Start { key, nonce } => Call::Start {
                key: Part {
                    place: key,
                    len: 16,
                }
                .of(pool)?,
                nonce: Part {
                    place: nonce,
                    len: 8,
                }
                .of(pool)?,
            },
            Command::Seal { aad, message } => Call::Seal {
                aad: aad.of(pool)?,
                message: message.of(pool)?,
            },
            Command::Open { aad, sealed } => Call::Open {
                aad: aad.of(pool)?,
                sealed: sealed.of(pool)?,
            },
            Command::Left => Call::Left,
            Command::Close => Call::Close,
        };
        Some(call)
    }

    // The bytes that must be free in the listing before it is carried out.
    pub(crate) fn room(self) -> usize
        ensures { result ≡ room self }
    {
        let len = match self {
            Command::Seal { message, .. } => message.len,
            Command::Open { sealed, .. } => sealed.len,
            Command::Start { .. } | Command::Left | Command::Close => 0,
        };
        64 + 2 * (usize::from(len) + 8)
    }
}
