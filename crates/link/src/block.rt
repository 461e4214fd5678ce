// The block of the state that an operation fills, at the places 0 to 7.
ghost use Rattle.std.specs.Prelude.{◌≡◌, ◌+◌, ◌-◌, ◌<◌, ◌≤◌, if◌then◌else◌, nat_eq};
ghost use Rattle.link.specs.Blocks.{xor_at, place, readied, closed};

use engine::Engine;
use engine::whole_state::byte_at;

// The pad of what the operation reads or tells, and how many places of the block are done. They are counted and not cut
// by `chunks`: the last block is closed otherwise, full or not, so a loop over a block would stand twice in each operation.
pub(crate) struct Block {
    pad: u8,
    done: usize,
    ghost within: { done ≤ 8 },
}

impl Block {
    pub(crate) fn new(pad: u8) -> Block
        ensures pad { result.pad ≡ pad }
        ensures done { result.done ≡ 0 }
    {
        Block { pad, done: 0 }
    }

    // The place of the next byte. Where the block is full, it is closed first.
    pub(crate) fn next<E: Engine>(&mut self, e: &mut E) -> usize
        requires { self.old.done ≡ 8 → 1 ≤ E.budget e.old }
        ensures at { result ≡ place self.old.done }
        ensures pad { self.new.pad ≡ self.old.pad }
        ensures done { self.new.done ≡ result + 1 }
        ensures bytes { E.bytes e.new ≡ readied E.mixing self.old.pad (E.bytes e.old) self.old.done }
        ensures budget { E.budget e.new ≡ E.budget e.old - (if nat_eq self.old.done 8 then 1 else 0) }
    {
        if self.done == 8 {
            xor_at(e, 8, self.pad);
            let _ = e.mix();
            self.done = 0;
        }
        let place = self.done;
        self.done += 1;
        place
    }

    // Closes the last block.
    pub(crate) fn finish<E: Engine>(self, e: &mut E)
        requires { 1 ≤ E.budget e.old }
        ensures bytes { E.bytes e.new ≡ closed E.mixing self.pad (E.bytes e.old) self.done }
        ensures budget { E.budget e.new ≡ E.budget e.old - 1 }
    {
        let Block { pad, done } = self;
        xor_at(e, done, 0x01);
        xor_at(e, 8, 0x02 ^ pad);
        let _ = e.mix();
    }
}

// Xors a byte into the state.
pub(crate) fn xor_at<E: Engine>(e: &mut E, i: usize, b: u8)
    requires { i < 32 }
    ensures bytes { E.bytes e.new ≡ xor_at (E.bytes e.old) i b }
    ensures budget { E.budget e.new ≡ E.budget e.old }
{
    let _ = e.replace(i, byte_at(e, i) ^ b);
}
