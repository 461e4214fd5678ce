// A list of exchanges, made at one endpoint.
ghost use Rattle.std.specs.Prelude.{◌≡◌};
ghost use Rattle.link.specs.Calls.{CallBytes, answer_of};
ghost use Rattle.link.specs.Steps.{Did, view};
ghost use Rattle.rehearsal.specs.Exchanges.{as_call, calls_of, replies_of, requests_of};
ghost use Rattle.rehearsal.specs.Turns.{AllBytes, replies, view_after};

use crate::exchange::{Answer, Exchange, Request};
use engine::Engine;
use link::endpoint::Endpoint;
use link::refusal::Refusal;

// Makes one request at the endpoint.
fn perform<E: Engine>(
    endpoint: &mut Endpoint<E>,
    request: &Request,
    output: &mut [u8],
) -> Result<Answer, Refusal>
    ensures inputs { CallBytes (as_call request.now output.old) }
    ensures did { Did E.mixing (view E.bytes E.budget endpoint.old) (as_call request.now output.old)
        (answer_of result) output.new (view E.bytes E.budget endpoint.new) }
{
    endpoint.call(request.call(), output)
}

// Makes every exchange in turn.
pub(crate) fn run<E: Engine>(endpoint: &mut Endpoint<E>, exchanges: &mut [Exchange])
    ensures requests { requests_of exchanges.new ≡ requests_of exchanges.old }
    ensures inputs { AllBytes (calls_of exchanges.old) }
    ensures told { replies_of exchanges.new
        ≡ replies E.mixing (view E.bytes E.budget endpoint.old) (calls_of exchanges.old) }
    ensures shows { view E.bytes E.budget endpoint.new
        ≡ view_after E.mixing (view E.bytes E.budget endpoint.old) (calls_of exchanges.old) }
{
    for exchange in exchanges.iter_mut() {
        exchange.answer = Some(perform(endpoint, &exchange.request, &mut exchange.output));
    }
}
