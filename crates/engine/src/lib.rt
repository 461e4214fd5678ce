// What a mixing engine is: 32 bytes, a number of mixings left, and a mixing function that is fixed for its kind.
#![tactic(auto)]

pub mod shortfall;
pub mod tally;
pub mod whole_state;

ghost use Rattle.std.specs.Prelude.{◌≡◌, ℕ, ◌-◌, ◌^◌, ◌<◌, List, replicate, nat_lt};
ghost use Rattle.engine.specs.States.{State, Mixes};
ghost use Rattle.engine.specs.Answers.{byte_at, replaced, mixed, said, afforded};

use crate::shortfall::Shortfall;

// Whatever keeps these six rules is an engine. The laws ask for no rule: they say only that the 32 bytes, the mixings
// left and the mixing function have their types.
pub trait Engine {
    ghost bytes: { Self → List ℕ };

    ghost budget: { Self → ℕ };

    ghost mixing: { List ℕ → List ℕ };

    // Makes all 32 bytes zero.
    fn clear(&mut self)
        ensures bytes { bytes self.new ≡ replicate 32 0 }
        ensures budget { budget self.new ≡ budget self.old };

    // The byte at a place from 0 to 31.
    fn byte(&self, place: usize) -> Option<u8>
        ensures { result ≡ byte_at (bytes self.now) place };

    // Puts a byte at a place from 0 to 31, and tells whether the place was one: the rule tells yes or no, and no value.
    fn replace(&mut self, place: usize, value: u8) -> bool
        ensures told { result ≡ nat_lt place 32 }
        ensures bytes { bytes self.new ≡ replaced (bytes self.old) place value }
        ensures budget { budget self.new ≡ budget self.old };

    // How many mixings are left.
    fn left(&self) -> u32
        ensures { result ≡ budget self.now };

    // Refuses exactly where more mixings are wanted than are left.
    fn afford(&self, wanted: u32) -> Result<(), Shortfall>
        ensures { said result ≡ afforded wanted (budget self.now) };

    // Mixes the 32 bytes where a mixing is left, and refuses as `afford(1)` does where none is.
    fn mix(&mut self) -> Result<(), Shortfall>
        ensures told { said result ≡ afforded 1 (budget self.old) }
        ensures bytes { bytes self.new ≡ mixed mixing budget bytes self.old }
        ensures budget { budget self.new ≡ budget self.old - 1 };

    ghost state: { (e : Self) → State (bytes e) };

    ghost counted: { (e : Self) → budget e < 2 ^ 32 };

    ghost keeps: { Mixes mixing };
}
