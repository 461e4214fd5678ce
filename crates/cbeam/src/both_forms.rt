// The two forms beside each other.
ghost use Rattle.std.specs.Prelude.{◌≡◌, ◌≤◌};
ghost use Rattle.cbeam.specs.Permutation.{pi};

use crate::plain::Plain;
use crate::planar::Planar;
use engine::Engine;
use engine::whole_state::{read_state, write_state};

// What one mixing makes of 32 bytes, by each form.
#[derive(Drop)]
pub struct Mixed {
    pub plain: [u8; 32],
    pub planar: [u8; 32],
}

fn mixed_by<E: Engine + Drop>(mut engine: E, values: &[u8; 32]) -> [u8; 32]
    requires { 1 ≤ E.budget engine }
    ensures { result ≡ E.mixing values.now }
{
    write_state(&mut engine, values);
    let _ = engine.mix();
    read_state(&engine)
}

// Mixes the 32 bytes once by each form. Whatever they are, both give the published permutation of them.
pub fn mixed_by_both(values: &[u8; 32]) -> Mixed
    ensures plain_is_published { result.plain ≡ pi values.now }
    ensures planar_is_published { result.planar ≡ pi values.now }
    ensures forms_agree { result.plain ≡ result.planar }
{
    Mixed {
        plain: mixed_by(Plain::new(1), values),
        planar: mixed_by(Planar::new(1), values),
    }
}
