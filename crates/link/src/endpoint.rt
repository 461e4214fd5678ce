// One end of a link. What each call does is the definition `step`. A model of an endpoint would need its bound on the
// struct, which asks more of callers; so contracts name its view by the engine's members.
ghost use Rattle.std.specs.Prelude.{◌≡◌, ℕ, List, []};
ghost use Rattle.link.specs.Calls.{Start, Seal, Open, Left, Close, started, sealed, opened, mixings_left, closed};
ghost use Rattle.link.specs.Calls.{CallBytes, answered, call_of, accepted, answer_of};
ghost use Rattle.link.specs.Steps.{Did, view, fresh};
ghost use Rattle.link.specs.declared.phase.Phase.TheVariants.{Idle, Live};

use crate::call::{Answer, Call};
use crate::cost::telegram_cost;
use crate::phase::Phase;
use crate::refusal::Refusal;
use crate::tag::{TAG_LENGTH, text_and_tag};
use crate::telegram::{KEY_LENGTH, NONCE_LENGTH, open_telegram, seal_telegram, start_session};
use engine::Engine;

const START_COST: u32 = 3;

// An engine, and whether a session is live over it.
#[derive(Drop)]
pub struct Endpoint<E> {
    engine: E,
    phase: Phase,
}

impl<E: Engine> Endpoint<E> {
    // An idle endpoint; the engine is as it was.
    pub fn new(engine: E) -> Endpoint<E>
        ensures { view E.bytes E.budget result ≡ fresh (E.bytes engine) (E.budget engine) }
    {
        Endpoint {
            engine,
            phase: Phase::Idle,
        }
    }

    // Begins a session. The named calls stand beside `call`, which takes the same as one value, each with its promise.
    pub fn start(&mut self, key: &[u8], nonce: &[u8]) -> Result<(), Refusal>
        ensures inputs { CallBytes (Start key.now nonce.now []) }
        ensures did { Did E.mixing (view E.bytes E.budget self.old) (Start key.now nonce.now [])
            (answered (λ _. started) result) [] (view E.bytes E.budget self.new) }
    {
        self.call(Call::Start { key, nonce }, &mut [])?;
        Ok(())
    }

    // Writes the sealed bytes of a telegram at the head of the output, and tells their length.
    pub fn seal(&mut self, aad: &[u8], message: &[u8], output: &mut [u8]) -> Result<usize, Refusal>
        ensures inputs { CallBytes (Seal aad.now message.now output.old) }
        ensures did { Did E.mixing (view E.bytes E.budget self.old)
            (Seal aad.now message.now output.old)
            (answered sealed result) output.new (view E.bytes E.budget self.new) }
    {
        Ok(self.call(Call::Seal { aad, message }, output)?.length())
    }

    // Writes the message of sealed bytes at the head of the output, and tells its length.
    pub fn open(&mut self, aad: &[u8], sealed: &[u8], output: &mut [u8]) -> Result<usize, Refusal>
        ensures inputs { CallBytes (Open aad.now sealed.now output.old) }
        ensures did { Did E.mixing (view E.bytes E.budget self.old)
            (Open aad.now sealed.now output.old)
            (answered opened result) output.new (view E.bytes E.budget self.new) }
    {
        Ok(self.call(Call::Open { aad, sealed }, output)?.length())
    }

    // The mixings left.
    pub fn left(&self) -> u32
        ensures { Did E.mixing (view E.bytes E.budget self.now) (Left []) (mixings_left result) []
            (view E.bytes E.budget self.now) }
    {
        self.engine.left()
    }

    // Ends the session, and clears the 32 bytes.
    pub fn close(&mut self) -> Result<(), Refusal>
        ensures { Did E.mixing (view E.bytes E.budget self.old) (Close []) (answered (λ _. closed) result) []
            (view E.bytes E.budget self.new) }
    {
        self.call(Call::Close, &mut [])?;
        Ok(())
    }

    // Makes any call; only seal and open write the output. What it does depends on the phase and the call together:
    // each pair has its arm here, and none catches a pair that a later call would add.
    pub fn call(&mut self, call: Call, output: &mut [u8]) -> Result<Answer, Refusal>
        ensures did { Did E.mixing (view E.bytes E.budget self.old) (call_of call.entry output.old)
            (answer_of result) output.new (view E.bytes E.budget self.new) }
    {
        match (self.phase, call) {
            (Phase::Idle, Call::Start { key, nonce }) => self.begin(key, nonce),
            (Phase::Idle, Call::Seal { .. }) => Err(Refusal::NotLive),
            (Phase::Idle, Call::Open { .. }) => Err(Refusal::NotLive),
            (Phase::Idle, Call::Left) => Ok(Answer::Left(self.left())),
            (Phase::Idle, Call::Close) => Err(Refusal::NotLive),
            (Phase::Live, Call::Start { .. }) => Err(Refusal::NotIdle),
            (Phase::Live, Call::Seal { aad, message }) => self.send(aad, message, output),
            (Phase::Live, Call::Open { aad, sealed }) => self.receive(aad, sealed, output),
            (Phase::Live, Call::Left) => Ok(Answer::Left(self.left())),
            (Phase::Live, Call::Close) => Ok(self.finish()),
        }
    }
}

// The calls in the phase that they want, which the match has found: the other questions in their order, then the work.
impl<E: Engine> Endpoint<E> {
    fn begin(&mut self, key: &[u8], nonce: &[u8]) -> Result<Answer, Refusal>
        requires { self.old.phase ≡ Idle }
        ensures { (out : List ℕ) →
            Did E.mixing (view E.bytes E.budget self.old) (Start key.now nonce.now out)
            (answer_of result) out (view E.bytes E.budget self.new) }
    {
        let key = <&[u8; KEY_LENGTH]>::try_from(key).map_err(|_| Refusal::KeyLength)?;
        let nonce = <&[u8; NONCE_LENGTH]>::try_from(nonce).map_err(|_| Refusal::NonceLength)?;
        self.engine.afford(START_COST)?;
        start_session(&mut self.engine, key, nonce);
        self.phase = Phase::Live;
        Ok(Answer::Started)
    }

    fn send(&mut self, aad: &[u8], message: &[u8], out: &mut [u8]) -> Result<Answer, Refusal>
        requires { self.old.phase ≡ Live }
        ensures { Did E.mixing (view E.bytes E.budget self.old)
            (Seal aad.now message.now out.old)
            (answer_of result) out.new (view E.bytes E.budget self.new) }
    {
        let data_length = u16::try_from(aad.len()).map_err(|_| Refusal::DataLength)?;
        let message_length = u16::try_from(message.len()).map_err(|_| Refusal::MessageLength)?;
        // Its part is taken below: held across the `?`, the rest is not proved to stay.
        let long = message.len() + TAG_LENGTH;
        if out.len() < long {
            return Err(Refusal::OutputLength);
        }
        self.engine
            .afford(telegram_cost(data_length, message_length))?;
        seal_telegram(&mut self.engine, aad, message, &mut out[..long]);
        Ok(Answer::Sealed(long))
    }

    fn receive(&mut self, aad: &[u8], sealed: &[u8], out: &mut [u8]) -> Result<Answer, Refusal>
        requires { self.old.phase ≡ Live }
        ensures { Did E.mixing (view E.bytes E.budget self.old)
            (Open aad.now sealed.now out.old)
            (answer_of result) out.new (view E.bytes E.budget self.new) }
    {
        let data_length = u16::try_from(aad.len()).map_err(|_| Refusal::DataLength)?;
        let message_length = u16::try_from(sealed.len().saturating_sub(TAG_LENGTH)).map_err(
            |_| Refusal::MessageLength,
        )?;
        let (text, tag) = text_and_tag(sealed).ok_or(Refusal::TagMissing)?;
        let n = text.len();
        if out.len() < n {
            return Err(Refusal::OutputLength);
        }
        self.engine
            .afford(telegram_cost(data_length, message_length))?;
        open_telegram(&mut self.engine, aad, text, tag, &mut out[..n])?;
        Ok(Answer::Opened(n))
    }

    fn finish(&mut self) -> Answer
        requires { self.old.phase ≡ Live }
        ensures { (out : List ℕ) →
            Did E.mixing (view E.bytes E.budget self.old) (Close out)
            (accepted result) out (view E.bytes E.budget self.new) }
    {
        self.engine.clear();
        self.phase = Phase::Idle;
        Answer::Closed
    }
}
