// What a telegram costs, in mixings.
ghost use Rattle.std.specs.Prelude.{◌≡◌};
ghost use Rattle.link.specs.Blocks.{mixings};
ghost use Rattle.link.specs.Sessions.{cost};

// The mixings that a block operation on n bytes takes.
fn mixings_for(n: u16) -> u32
    ensures { result ≡ mixings n }
{
    u32::from(n.div_ceil(8)).max(1)
}

// The mixings that a telegram with so many bytes of associated data and of message takes.
pub(crate) fn telegram_cost(aad: u16, message: u16) -> u32
    ensures { result ≡ cost aad message }
{
    mixings_for(aad) + mixings_for(message) + 1
}
