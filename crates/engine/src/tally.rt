// The calls stand in a file of their own, since they cite definitions over the tally, which this one cannot import.
mod calls;

ghost use Rattle.std.specs.Prelude.{◌^◌, ◌<◌, ◌≤◌};

// Mixings given and spent. No tally exists that has spent more than it was given, so what is left never wraps.
#[derive(Drop)]
pub struct Tally {
    given: u32,
    spent: u32,
    ghost covered: { spent ≤ given },
    ghost counted: { given < 2 ^ 32 },
}
