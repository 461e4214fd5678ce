// A request to an endpoint, the output lent to it, and the answer to it.
ghost use Rattle.std.specs.Prelude.{◌≡◌, ℕ, List};
ghost use Rattle.engine.specs.States.{Bytes};
ghost use Rattle.link.specs.Calls.{CallBytes, call_of};
ghost use Rattle.rehearsal.specs.Exchanges.{as_call};

pub use link::call::Answer;
use link::call::Call;
use link::refusal::Refusal;

// It owns its bytes where a call lends them: one type for both would need a bound that tells a holder's bytes.
#[derive(Drop)]
pub enum Request {
    Start { key: Vec<u8>, nonce: Vec<u8> },
    Seal { aad: Vec<u8>, message: Vec<u8> },
    Open { aad: Vec<u8>, sealed: Vec<u8> },
    Left,
    Close,
}

impl Request {
    // The call that it is, with its bytes lent. Not `From`, whose contract has no names for its two promises.
    pub fn call(&self) -> Call<'_>
        ensures call { (out : List ℕ) → call_of result out ≡ as_call self.now out }
        ensures inputs { (out : List ℕ) → CallBytes (call_of result out) }
    {
        match self {
            Request::Start { key, nonce } => Call::Start {
                key: lent(key),
                nonce: lent(nonce),
            },
            Request::Seal { aad, message } => Call::Seal {
                aad: lent(aad),
                message: lent(message),
            },
            Request::Open { aad, sealed } => Call::Open {
                aad: lent(aad),
                sealed: lent(sealed),
            },
            Request::Left => Call::Left,
            Request::Close => Call::Close,
        }
    }
}

// A slice's bytes are below 256: a contract can say so where the slice is a parameter.
fn lent(bytes: &[u8]) -> &[u8]
    ensures same { result.now ≡ bytes.now }
    ensures small { Bytes result.now }
{
    bytes
}

// There is no answer before the request is made.
#[derive(Drop)]
pub struct Exchange {
    pub request: Request,
    pub output: Vec<u8>,
    pub answer: Option<Result<Answer, Refusal>>,
}
