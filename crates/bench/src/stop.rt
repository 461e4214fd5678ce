// What stops a run at a command, with the numbers that the listing tells.
ghost use Rattle.std.specs.Prelude.{◌≡◌};
ghost use Rattle.bench.specs.Refusals.{stop_number};

#[derive(Clone, Copy)]
pub(crate) enum Stop {
    ListingFull = 12,
    UnknownCommand = 13,
    OperandsCut = 14,
    OutsidePool = 15,
}

impl Stop {
    pub(crate) fn number(self) -> u8
        ensures { result ≡ stop_number self }
    {
        self as u8
    }
}
