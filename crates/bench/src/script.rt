// The commands of a script, one after another.
ghost use Rattle.std.specs.Prelude.{Ok, Err};
ghost use Rattle.bench.specs.Reading.{Read, Unread};

use crate::command::{Command, Part};
use crate::stop::Stop;

// The command at the head of a script, and what follows it.
#[tactic(auto, unfolding(crate::specs::Commands::command_of))]
pub(crate) fn read(script: &[u8]) -> Result<(Command, &[u8]), Stop>
    ensures { elim result [ Ok p ↦ Read script.now p.0 p.1.now | Err e ↦ Unread script.now e ] }
{
    match script {
        [1, a, b, c, d, rest @ ..] => {
            let start = Command::Start {
                key: u16::from_le_bytes([*a, *b]),
                nonce: u16::from_le_bytes([*c, *d]),
            };
            Ok((start, rest))
        }
        [2, a, b, c, d, e, f, g, h, rest @ ..] => {
            let seal = Command::Seal {
                aad: Part::from_le_bytes([*a, *b, *c, *d]),
                message: Part::from_le_bytes([*e, *f, *g, *h]),
            };
            Ok((seal, rest))
        }
        [3, a, b, c, d, e, f, g, h, rest @ ..] => {
            let open = Command::Open {
                aad: Part::from_le_bytes([*a, *b, *c, *d]),
                sealed: Part::from_le_bytes([*e, *f, *g, *h]),
            };
            Ok((open, rest))
        }
        [4, rest @ ..] => Ok((Command::Left, rest)),
        [5, rest @ ..] => Ok((Command::Close, rest)),
        [1..=3, ..] => Err(Stop::OperandsCut),
        _ => Err(Stop::UnknownCommand),
    }
}
