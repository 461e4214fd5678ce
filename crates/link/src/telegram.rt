// What start, seal and open do to the state once their questions are passed. That the mixings suffice is asked by each:
// it is a relation of an engine and two lengths, which no type of one value has. That an output has the length of what
// fills it is asked where it is filled: it is a relation of two slices.
ghost use Rattle.std.specs.Prelude.{◌≡◌, ◌+◌, ◌-◌, ◌≤◌, cond, ◌++◌, length, Ok, Err};
ghost use Rattle.link.specs.Blocks.{zeros};
ghost use Rattle.link.specs.Sessions.{cost, session_begun, sealing_at, after_telegram};
ghost use Rattle.link.specs.Sessions.{plaintext, after_plaintext, tag_of, after_tag, genuine};
ghost use Rattle.link.specs.declared.refusal.Refusal.TheVariants.{Tag};

use crate::blocks::{put, tell};
use crate::operation::{Dec, Enc, Get};
use crate::refusal::Refusal;
use crate::tag::{TAG_LENGTH, same_tag};
use crate::wipe::Wipe;
use engine::Engine;
use engine::whole_state::{read_state, write_state};

pub(crate) const KEY_LENGTH: usize = 16;

pub(crate) const NONCE_LENGTH: usize = 8;

// The pad of each kind of input. It is a number that is xored in, and nothing looks at its kind.
const KEY_PAD: u8 = 0x10;

const NONCE_PAD: u8 = 0x20;

const DATA_PAD: u8 = 0x40;

const MESSAGE_PAD: u8 = 0x50;

const TAG_PAD: u8 = 0x60;

// Begins a session in the state.
pub(crate) fn start_session<E: Engine>(
    e: &mut E,
    key: &[u8; KEY_LENGTH],
    nonce: &[u8; NONCE_LENGTH],
)
    requires { 3 ≤ E.budget e.old }
    ensures bytes { E.bytes e.new ≡ session_begun E.mixing key.now nonce.now }
    ensures budget { E.budget e.new ≡ E.budget e.old - 3 }
{
    e.clear();
    put(e, KEY_PAD, key);
    put(e, NONCE_PAD, nonce);
}

// The tag that the state gives.
#[tactic(auto, unfolding(crate::specs::Sessions::tag_of, crate::specs::Sessions::after_tag))]
fn next_tag<E: Engine>(e: &mut E) -> [u8; TAG_LENGTH]
    requires { 1 ≤ E.budget e.old }
    ensures told { result ≡ tag_of E.mixing (E.bytes e.old) }
    ensures bytes { E.bytes e.new ≡ after_tag E.mixing (E.bytes e.old) }
    ensures budget { E.budget e.new ≡ E.budget e.old - 1 }
{
    let mut tag = [0; TAG_LENGTH];
    tell::<Get, E>(e, TAG_PAD, &[0; TAG_LENGTH], &mut tag);
    tag
}

// Adds a telegram to the session, and fills `out` with its sealed bytes.
pub(crate) fn seal_telegram<E: Engine>(e: &mut E, aad: &[u8], message: &[u8], out: &mut [u8])
    requires budget { cost (length aad.now) (length message.now) ≤ E.budget e.old }
    requires room { length out.old ≡ length message.now + 8 }
    ensures bytes { E.bytes e.new ≡ after_telegram E.mixing (E.bytes e.old) aad.now message.now }
    ensures budget { E.budget e.new ≡ E.budget e.old - cost (length aad.now) (length message.now) }
    ensures out { out.new ≡ sealing_at E.mixing (E.bytes e.old) aad.now message.now }
{
    let (text, tag) = out.split_at_mut(message.len());
    put(e, DATA_PAD, aad);
    tell::<Enc, E>(e, MESSAGE_PAD, message, text);
    tag.copy_from_slice(&next_tag(e));
}

// Fills `out` with what enciphered bytes give, and tells whether the tag is the session's. Either way the caller has work
// to do, so it is no `Result`.
#[tactic(auto, unfolding(crate::specs::Sessions::plaintext, crate::specs::Sessions::after_plaintext, crate::specs::Sessions::after_data))]
fn decipher<E: Engine>(
    e: &mut E,
    aad: &[u8],
    text: &[u8],
    tag: &[u8; TAG_LENGTH],
    out: &mut [u8],
) -> bool
    requires budget { cost (length aad.now) (length text.now) ≤ E.budget e.old }
    requires room { length out.old ≡ length text.now }
    ensures told { result ≡ genuine E.mixing (E.bytes e.old) aad.now (text.now ++ tag.now) }
    ensures bytes { E.bytes e.new
        ≡ after_tag E.mixing (after_plaintext E.mixing (E.bytes e.old) aad.now (text.now ++ tag.now)) }
    ensures budget { E.budget e.new ≡ E.budget e.old - cost (length aad.now) (length text.now) }
    ensures out { out.new ≡ plaintext E.mixing (E.bytes e.old) aad.now (text.now ++ tag.now) }
{
    put(e, DATA_PAD, aad);
    tell::<Dec, E>(e, MESSAGE_PAD, text, out);
    same_tag(&next_tag(e), tag)
}

// Opens a telegram, and fills `out` with its message. Where the tag is wrong, the 32 bytes are as they were and `out` is
// zeroed.
pub(crate) fn open_telegram<E: Engine>(
    e: &mut E,
    aad: &[u8],
    text: &[u8],
    tag: &[u8; TAG_LENGTH],
    out: &mut [u8],
) -> Result<(), Refusal>
    requires budget { cost (length aad.now) (length text.now) ≤ E.budget e.old }
    requires room { length out.old ≡ length text.now }
    ensures told { result ≡ cond (genuine E.mixing (E.bytes e.old) aad.now (text.now ++ tag.now)) (Ok tt) (Err Tag) }
    ensures bytes { E.bytes e.new
        ≡ cond (genuine E.mixing (E.bytes e.old) aad.now (text.now ++ tag.now))
        (after_tag E.mixing (after_plaintext E.mixing (E.bytes e.old) aad.now (text.now ++ tag.now)))
        (E.bytes e.old) }
    ensures budget { E.budget e.new ≡ E.budget e.old - cost (length aad.now) (length text.now) }
    ensures out { out.new
        ≡ cond (genuine E.mixing (E.bytes e.old) aad.now (text.now ++ tag.now))
        (plaintext E.mixing (E.bytes e.old) aad.now (text.now ++ tag.now))
        (zeros (length text.now)) }
{
    let saved = read_state(e);
    let guard = Wipe(out);
    if decipher(e, aad, text, tag, guard.0) {
        guard.release();
        return Ok(());
    }
    write_state(e, &saved);
    Err(Refusal::Tag)
}
