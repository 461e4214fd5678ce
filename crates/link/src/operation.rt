// What a block operation does with one byte. The operations that tell bytes have a type each.
ghost use Rattle.std.specs.Prelude.{◌≡◌, ◌<◌, [], ◌∷◌, slice_index};
ghost use Rattle.link.specs.Blocks.{Op, get, enc, dec, treated, tells};

use engine::Engine;
use engine::whole_state::byte_at;

pub(crate) trait Operation {
    ghost op: { Op };

    // Treats the byte x that comes in at a place of the state, and tells what the operation tells. Only what is altered
    // is replaced.
    fn treat<E: Engine>(e: &mut E, i: usize, x: u8) -> u8
        requires { i < 32 }
        ensures told { tells op (slice_index (E.bytes e.old) i) x ≡ result ∷ [] }
        ensures bytes { E.bytes e.new ≡ treated op (E.bytes e.old) i x }
        ensures budget { E.budget e.new ≡ E.budget e.old };
}

pub(crate) struct Get;

impl Operation for Get {
    ghost op = { get };

    fn treat<E: Engine>(e: &mut E, i: usize, _x: u8) -> u8 {
        byte_at(e, i)
    }
}

pub(crate) struct Enc;

impl Operation for Enc {
    ghost op = { enc };

    fn treat<E: Engine>(e: &mut E, i: usize, x: u8) -> u8 {
        let made = byte_at(e, i) ^ x;
        let _ = e.replace(i, made);
        made
    }
}

pub(crate) struct Dec;

impl Operation for Dec {
    ghost op = { dec };

    fn treat<E: Engine>(e: &mut E, i: usize, x: u8) -> u8 {
        let made = byte_at(e, i) ^ x;
        let _ = e.replace(i, x);
        made
    }
}
