// Two new endpoints, and a list of exchanges at each.
ghost use Rattle.std.specs.Prelude.{◌≡◌};
ghost use Rattle.link.specs.Steps.{view};
ghost use Rattle.rehearsal.specs.Exchanges.{calls_of, replies_of, requests_of};
ghost use Rattle.rehearsal.specs.Laws.{Modelled, Exact, Conserved, InStep, Rehearsed, InStepWithAny};

use crate::exchange::Exchange;
use crate::run::run;
use engine::Engine;
use link::endpoint::Endpoint;

// Makes a new endpoint over the engine, and the exchanges at it in turn.
fn rehearse_one<E: Engine>(engine: E, exchanges: &mut [Exchange]) -> Endpoint<E>
    ensures requests { requests_of exchanges.new ≡ requests_of exchanges.old }
    ensures modelled { Modelled E.mixing (E.budget engine) (calls_of exchanges.old) (replies_of exchanges.new)
        (view E.bytes E.budget result) }
    ensures exact { Exact E.mixing (E.budget engine) (calls_of exchanges.old) (replies_of exchanges.new) }
    ensures conserved { Conserved (E.budget engine) (calls_of exchanges.old) (replies_of exchanges.new)
        (E.budget result.engine) }
    ensures rehearsed { Rehearsed E.mixing (E.budget engine) (calls_of exchanges.old) (replies_of exchanges.new) }
    ensures in_step { InStepWithAny E.mixing (E.budget engine) (calls_of exchanges.old)
        (replies_of exchanges.new) }
{
    let mut endpoint = Endpoint::new(engine);
    run(&mut endpoint, exchanges);
    endpoint
}

// Makes a new endpoint over each engine and the exchanges at each in turn, and fills in their outputs and answers.
pub fn rehearse<A: Engine, B: Engine>(
    one: A,
    two: B,
    first: &mut [Exchange],
    second: &mut [Exchange],
) -> (Endpoint<A>, Endpoint<B>)
    ensures requests_stay { (requests_of first.new ≡ requests_of first.old)
        × (requests_of second.new ≡ requests_of second.old) }
    ensures answers_are_the_models { Modelled A.Engine.mixing (A.Engine.budget one) (calls_of first.old)
        (replies_of first.new) (view A.Engine.bytes A.Engine.budget result.0)
        × Modelled B.Engine.mixing (B.Engine.budget two) (calls_of second.old)
        (replies_of second.new) (view B.Engine.bytes B.Engine.budget result.1) }
    ensures openings_are_exact { Exact A.Engine.mixing (A.Engine.budget one) (calls_of first.old) (replies_of first.new)
        × Exact B.Engine.mixing (B.Engine.budget two) (calls_of second.old)
        (replies_of second.new) }
    ensures mixings_are_conserved { Conserved (A.Engine.budget one) (calls_of first.old) (replies_of first.new)
        (A.Engine.budget result.0.engine)
        × Conserved (B.Engine.budget two) (calls_of second.old) (replies_of second.new)
        (B.Engine.budget result.1.engine) }
    ensures ends_stay_in_step { InStep A.Engine.mixing B.Engine.mixing (A.Engine.budget one) (B.Engine.budget two)
        (calls_of first.old) (replies_of first.new)
        (calls_of second.old) (replies_of second.new) }
{
    let near = rehearse_one(one, first);
    let far = rehearse_one(two, second);
    (near, far)
}
