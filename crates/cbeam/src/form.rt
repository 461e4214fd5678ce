// A form of the permutation: how the 32 bytes of a state are held, told, changed and permuted.
ghost use Rattle.std.specs.Prelude.{◌≡◌, ℕ, List, replicate, slice_index, slice_set};
ghost use Rattle.engine.specs.States.{State};
ghost use Rattle.cbeam.specs.Permutation.{pi};

use crate::place::Place;

// Every form permutes alike: each is held to the one definition of the permutation, on every state.
pub trait Form {
    ghost bytes: { Self → List ℕ };

    // The form of 32 zero bytes.
    fn zeros() -> Self
        ensures { bytes result ≡ replicate 32 0 };

    fn byte_at(&self, place: Place) -> u8
        ensures { result ≡ slice_index (bytes self.now) place.index };

    fn put_at(&mut self, place: Place, value: u8)
        ensures { bytes self.new ≡ slice_set (bytes self.old) place.index value };

    fn permute(&mut self)
        ensures { bytes self.new ≡ pi (bytes self.old) };

    ghost state: { (f : Self) → State (bytes f) };
}
