// The 32 bytes of any engine, read and written by its rules for single bytes.
ghost use Rattle.std.specs.Prelude.{◌≡◌, slice_index};

use crate::Engine;
use std::array;

// The byte at a place; past the last place, 0.
pub fn byte_at<E: Engine>(engine: &E, place: usize) -> u8
    ensures { result ≡ slice_index (E.bytes engine.now) place }
{
    engine.byte(place).unwrap_or(0)
}

pub fn read_state<E: Engine>(engine: &E) -> [u8; 32]
    ensures { result ≡ E.bytes engine.now }
{
    array::from_fn(|place| byte_at(engine, place))
}

pub fn write_state<E: Engine>(engine: &mut E, values: &[u8; 32])
    ensures bytes { E.bytes engine.new ≡ values.now }
    ensures budget { E.budget engine.new ≡ E.budget engine.old }
{
    for (place, value) in values.iter().enumerate() {
        let _ = engine.replace(place, *value);
    }
}
