// A session of one telegram.
ghost use Rattle.std.specs.Prelude.{◌≡◌, []};
ghost use Rattle.cbeam.specs.Permutation.{pi};
ghost use Rattle.link.specs.Sessions.{sealing};
ghost use Rattle.link.specs.Calls.{sealed, opened, answered, answer_of, call_of};
ghost use Rattle.link.specs.Steps.{reply};
ghost use Rattle.cbeam128r1.specs.Published.{encryption};
ghost use Rattle.cbeam128r1.specs.OneShot.{encrypt_reply, decrypt_reply, single_reply};
ghost use Rattle.cbeam128r1.specs.Exact.{Exact};

use crate::form::Form;
use cbeam::plain::Plain;
use cbeam::planar::Planar;
use engine::Engine;
use link::call::{Answer, Call};
use link::endpoint::Endpoint;
use link::refusal::Refusal;

// Three mixings start a session and 16,385 are the most that a telegram takes, so they never run out.
const ENOUGH: u32 = 16_388;

// Writes ciphertext and tag at the head of the output, and tells their length. What is published is what a session over
// the permutation seals as its first telegram. The parameters are those that the publication names.
#[tactic(auto, using(crate::proofs::OneTelegram::sealed_single, crate::proofs::Agreement::encryption_sealing))]
pub fn encrypt(
    form: Form,
    key: &[u8],
    nonce: &[u8],
    aad: &[u8],
    message: &[u8],
    output: &mut [u8],
) -> Result<usize, Refusal>
    ensures published { reply (answered sealed result) output.new
        ≡ encrypt_reply key.now nonce.now aad.now message.now
        output.old }
    ensures first_of_a_session { encryption key.now nonce.now aad.now message.now
        ≡ sealing pi key.now nonce.now [] aad.now message.now }
{
    let call = Call::Seal { aad, message };
    Ok(in_session(form, key, nonce, call, output)?.length())
}

// Writes the message of sealed bytes at the head of the output, and tells its length. Where the tag is wrong, the
// message's place is zeroed.
#[tactic(auto, using(crate::proofs::OneTelegram::opened_single, crate::proofs::Exactness::exact_reply))]
pub fn decrypt(
    form: Form,
    key: &[u8],
    nonce: &[u8],
    aad: &[u8],
    sealed: &[u8],
    output: &mut [u8],
) -> Result<usize, Refusal>
    ensures published { reply (answered opened result) output.new
        ≡ decrypt_reply key.now nonce.now aad.now sealed.now
        output.old }
    ensures exact { Exact key.now nonce.now aad.now sealed.now output.old
        (answered opened result) output.new }
{
    let call = Call::Open { aad, sealed };
    Ok(in_session(form, key, nonce, call, output)?.length())
}

// Makes one call in a session of its own, over the form that is chosen. Each form has an engine of another type, so the
// choice is a match.
fn in_session(
    form: Form,
    key: &[u8],
    nonce: &[u8],
    call: Call,
    output: &mut [u8],
) -> Result<Answer, Refusal>
    ensures { reply (answer_of result) output.new
        ≡ single_reply pi 16388 key.now nonce.now (call_of call.entry output.old) }
{
    match form {
        Form::Plain => in_session_over(Plain::new(ENOUGH), key, nonce, call, output),
        Form::Planar => in_session_over(Planar::new(ENOUGH), key, nonce, call, output),
    }
}

fn in_session_over<E: Engine + Drop>(
    engine: E,
    key: &[u8],
    nonce: &[u8],
    call: Call,
    output: &mut [u8],
) -> Result<Answer, Refusal>
    ensures { reply (answer_of result) output.new
        ≡ single_reply E.mixing (E.budget engine) key.now nonce.now (call_of call.entry output.old) }
{
    let mut endpoint = Endpoint::new(engine);
    endpoint.start(key, nonce)?;
    let answer = endpoint.call(call, output);
    let _ = endpoint.close();
    answer
}
