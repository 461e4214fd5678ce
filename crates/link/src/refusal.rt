// Why a call was refused; the definition `refusal` gives each case its number and values.
ghost use Rattle.std.specs.Prelude.{◌≡◌, ◌≤◌};
ghost use Rattle.link.specs.Calls.{refusal, number_of};
ghost use Rattle.link.specs.declared.refusal.Refusal.TheVariants.{Mixings};

use engine::shortfall::Shortfall;

#[derive(Clone, Copy, PartialEq, Eq, Debug)]
pub enum Refusal {
    NotLive,
    NotIdle,
    KeyLength,
    NonceLength,
    DataLength,
    MessageLength,
    TagMissing,
    OutputLength,
    Mixings(Shortfall),
    Tag,
}

impl From<Shortfall> for Refusal {
    ghost from_gives = { λ s r. r ≡ Mixings s };

    fn from(s: Shortfall) -> Refusal {
        Refusal::Mixings(s)
    }
}

impl Refusal {
    // Its number; `as` gives none where a case holds values.
    pub fn number(self) -> u32
        ensures value { result ≡ number_of (refusal self) }
        ensures bound { result ≤ 10 }
    {
        match self {
            Refusal::NotLive => 1,
            Refusal::NotIdle => 2,
            Refusal::KeyLength => 3,
            Refusal::NonceLength => 4,
            Refusal::DataLength => 5,
            Refusal::MessageLength => 6,
            Refusal::TagMissing => 7,
            Refusal::OutputLength => 8,
            Refusal::Mixings(_) => 9,
            Refusal::Tag => 10,
        }
    }
}
