// A form of the permutation with a tally of its mixings is an engine.
ghost use Rattle.std.specs.Prelude.{◌≡◌, replicate};
ghost use Rattle.engine.specs.Tallies.{remaining, remaining_counted};
ghost use Rattle.cbeam.specs.Permutation.{pi};
ghost use Rattle.cbeam.specs.States.{pi_state};

use crate::form::Form;
use crate::place::Place;
use engine::Engine;
use engine::shortfall::Shortfall;
use engine::tally::Tally;

#[derive(Drop)]
pub struct Budgeted<F> {
    form: F,
    tally: Tally,
}

impl<F: Form> Budgeted<F> {
    // An engine of 32 zero bytes with so many mixings given.
    pub fn new(given: u32) -> Budgeted<F>
        ensures bytes { F.Form.bytes result.form ≡ replicate 32 0 }
        ensures left { remaining result.tally ≡ given }
    {
        Budgeted {
            form: F::zeros(),
            tally: Tally::new(given),
        }
    }
}

impl<F: Form + Drop> Engine for Budgeted<F> {
    ghost bytes = { λ e. F.Form.bytes e.form };

    ghost budget = { λ e. remaining e.tally };

    ghost mixing = { pi };

    ghost state = { λ e. F.Form.state e.form };

    ghost counted = { λ e. remaining_counted e.tally };

    ghost keeps = { pi_state };

    fn clear(&mut self) {
        self.form = F::zeros();
    }

    fn byte(&self, place: usize) -> Option<u8> {
        Some(self.form.byte_at(Place::of(place)?))
    }

    fn replace(&mut self, place: usize, value: u8) -> bool {
        let Some(place) = Place::of(place) else {
            return false;
        };
        self.form.put_at(place, value);
        true
    }

    fn left(&self) -> u32 {
        self.tally.left()
    }

    fn afford(&self, wanted: u32) -> Result<(), Shortfall> {
        self.tally.afford(wanted)
    }

    fn mix(&mut self) -> Result<(), Shortfall> {
        self.tally.spend()?;
        self.form.permute();
        Ok(())
    }
}
