// A tally is made with nothing spent, and changes only by spending one mixing.
ghost use Rattle.std.specs.Prelude.{◌≡◌, ◌-◌};
ghost use Rattle.engine.specs.Answers.{said, afforded};
ghost use Rattle.engine.specs.Tallies.{remaining};

use crate::shortfall::Shortfall;
use crate::tally::Tally;

impl Tally {
    pub fn new(given: u32) -> Tally
        ensures given { result.given ≡ given }
        ensures left { remaining result ≡ given }
    {
        Tally { given, spent: 0 }
    }

    pub fn left(&self) -> u32
        ensures { result ≡ remaining self.now }
    {
        self.given - self.spent
    }

    // Refuses exactly where more mixings are wanted than are left.
    pub fn afford(&self, wanted: u32) -> Result<(), Shortfall>
        ensures { said result ≡ afforded wanted (remaining self.now) }
    {
        let left = self.left();
        if wanted > left {
            return Err(Shortfall { wanted, left });
        }
        Ok(())
    }

    // Counts one mixing where one is left.
    pub fn spend(&mut self) -> Result<(), Shortfall>
        ensures told { said result ≡ afforded 1 (remaining self.old) }
        ensures given { self.new.given ≡ self.old.given }
        ensures left { remaining self.new ≡ remaining self.old - 1 }
    {
        self.afford(1)?;
        self.spent += 1;
        Ok(())
    }
}
