// The places of a state, as a type.
ghost use Rattle.std.specs.Prelude.{◌≡◌, ◌<◌, ◌≤◌, MatchOption};

// A place of a state. None exists past the last of the 32, so a form need not test for one.
#[derive(Clone, Copy)]
pub struct Place {
    pub(crate) index: usize,
    ghost within: { index < 32 },
}

impl Place {
    // Not `TryFrom`: both callers answer with an Option or a bool, and would throw its error away.
    pub fn of(index: usize) -> Option<Place>
        ensures { MatchOption result (32 ≤ index) (λ p. p.index ≡ index) }
    {
        if index < 32 {
            Some(Place { index })
        } else {
            None
        }
    }
}
