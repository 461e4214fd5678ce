// The block operations: put, and those that tell a byte for each.
ghost use Rattle.std.specs.Prelude.{◌≡◌, ◌-◌, ◌≤◌, length};
ghost use Rattle.link.specs.Blocks as op;
ghost use Rattle.link.specs.Blocks.{after, told, mixings};

use crate::block::{Block, xor_at};
use crate::operation::Operation;
use engine::Engine;

// Xors the bytes into the state. It only reads them, so it is no case of `tell`.
pub(crate) fn put<E: Engine>(e: &mut E, pad: u8, input: &[u8])
    requires { mixings (length input.now) ≤ E.budget e.old }
    ensures bytes { E.bytes e.new ≡ after E.mixing op.put pad (E.bytes e.old) 0 input.now }
    ensures budget { E.budget e.new ≡ E.budget e.old - mixings (length input.now) }
{
    let mut block = Block::new(pad);
    for b in input {
        let i = block.next(e);
        xor_at(e, i, *b);
    }
    block.finish(e);
}

// Tells of each byte that comes in what the operation tells, in the same place of the output, which has to be as long: a
// relation of two slices. By `zip` over both, no contract would say what the output holds after.
pub(crate) fn tell<O: Operation, E: Engine>(e: &mut E, pad: u8, input: &[u8], out: &mut [u8])
    requires budget { mixings (length input.now) ≤ E.budget e.old }
    requires room { length out.old ≡ length input.now }
    ensures bytes { E.bytes e.new ≡ after E.mixing O.op pad (E.bytes e.old) 0 input.now }
    ensures budget { E.budget e.new ≡ E.budget e.old - mixings (length input.now) }
    ensures told { out.new ≡ told E.mixing O.op pad (E.bytes e.old) 0 input.now }
{
    let mut block = Block::new(pad);
    for (k, x) in input.iter().enumerate() {
        let i = block.next(e);
        out[k] = O::treat(e, i, *x);
    }
    block.finish(e);
}
